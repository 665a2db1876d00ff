//! Making the instance tree of a project: [`elaborate`].
//!
//! (`faults`, `late` and those that begin so). `specs/Building` has the invariant of the first part, `specs/Landing` what the second
//! The tree is built member by member (`turning`): an instance that is entered gets its type from what `new` gives and what replacements around it
//! Then the tree that is built (`built`) is judged (`judging`): where paths lead by the nodes' numbers (`finding_names`, `finding_paths`,
//! What stands is private, each part with its own contract. For building a tree member by member: the replacements that wait at an
//! `finding_pins`), the pins of its types (`gathering_pins`), the assignments that count (`assigned`, `effective`), and the first fault of paths
//! another (`growing`, `places`, `building`), and how a fault tells its instance (`fault_paths`). For a tree that is built (`built`): where
//! assignments that count in one pass (`assigned`), their entries (`effective`), and the first fault of paths (`faults`, `late` and those
//! instance (`changes`, `ways`, `leads`), the type of a member (`news`, `settling`, `marks`), nodes, occurrences and places that are put one behind
//! lead to (`entering`, from `news`, `changes`, `ways`, `leads`, `settling` and `marks`), what its type holds is counted (`contents`), and nodes,
//! occurrences and places are put one behind another (`growing`, `places`, `building`, `roots`). A fault tells its instance (`fault_paths`).
//! paths lead by the nodes' numbers (`finding_names`, `finding_paths`, `finding_pins`), the pins of its types (`gathering_pins`), the
//! stands on.
//! that begin so). `judging` finds the assignments and the fault together, and `finishing` makes the tree.
#![tactic(auto)]

mod assigned;
mod assigned_laws;
mod building;
mod built;
mod changes;
mod contents;
mod count_laws;
mod effective;
mod elaborating;
mod entering;
mod entry;
mod fault_paths;
mod faults;
mod finding_names;
mod finding_paths;
mod finding_pins;
mod finishing;
mod frames;
mod gathering_pins;
mod growing;
mod judging;
mod late;
mod late_exprs;
mod late_faults;
mod late_first;
mod late_ground;
mod late_laws;
mod late_listing;
mod late_names;
mod late_paths;
mod late_prefixes;
mod late_slots;
mod late_stmts;
mod leads;
mod marks;
mod news;
mod places;
mod roots;
mod settling;
mod turning;
mod ways;

pub use elaborating::elaborate;
pub use late_names::names_to;
pub use late_slots::string_of;
pub use settling::descends;
