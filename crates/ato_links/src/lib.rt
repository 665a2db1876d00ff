//! The nets of a project: what its connections join, its parts, and its nets.
//!
//! `specs/Links` says which places of the tree a written connection joins, `specs/LinkFaults` which fault of paths and links stands first,
//! `specs/Joins` when two places are joined and which numbers the classes of nodes have, `specs/Parts` which parts there are and
//! `specs/Nets` which nets.
#![tactic(auto)]

mod classes;
mod laws;

pub use classes::Classes;
pub use laws::{
    blocks_have_names, designators_differ, each_prefix_is_one, fault_by_tree, first_of_both,
    joins_are_nodes, least_are_classes, links_are_placed, links_are_whole, names_are_in_table,
    nets_by_numbers, nets_share, no_pin_twice, one_classes, one_link_fault, parts_have_types,
    pins_stand_in_parts, same_number_is_joined,
};
