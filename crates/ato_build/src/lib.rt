//! The compiler: what a command line asks for, done.
//!
//! The words, a shelf of files, a tray and a sink come in; files are put, a text is printed, and a
//! status goes out. specs/Headline.antt says what each status means; it is a clause of [`run`]. The
//! commands are `build`, which picks a part or shows that none will do, and `check`, which checks a
//! certificate. For now a source file is of the first form (docs/LANGUAGE.md).
#![tactic(auto)]

mod answer;
mod building;
mod checking;
mod decisions;
mod entry;
mod fetching;
mod outputs;
mod printing;
mod problems;
mod project;
mod reading;
mod refusing;
mod running;
mod settling;
mod status;
mod texts;

pub use ato_words::{Build, Check, Task, job};
pub use running::run;
pub use status::Status;
