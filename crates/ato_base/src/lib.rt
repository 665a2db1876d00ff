//! What every layer of the compiler speaks of: lists and texts that contracts see as lists, the
//! table of names, tokens, places and faults, and the net list.
#![tactic(auto)]

mod faults;
mod keywords;
mod list;
mod memory;
mod name_table;
mod names;
mod nets;
mod places;
mod stages;
#[cfg(test)]
mod tests;
mod text;
mod tokens;

pub use faults::{Fault, FaultKind, Refusal};
pub use keywords::{Keyword, Mark};
pub use list::List;
pub use memory::NoMemory;
pub use name_table::{Name, NameTable};
pub use names::{first_char, is_keyword, is_name};
pub use nets::{Comp, Net, NetList, NetPin, PartRow};
pub use places::{FileId, Place, Span};
pub use stages::{Stages, one_fault_stands};
pub use text::Text;
pub use tokens::{Token, TokenKind};
