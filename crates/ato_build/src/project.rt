//! What is asked of a run, apart from its command.

use ato_base::Text;

/// What every command reads first: the file of the entry with the name of its block, and the catalogue.
#[derive(Debug, Drop)]
pub(crate) struct Project {
    pub file: Text,
    pub block: Text,
    pub catalogue: Text,
}

/// The options of a build: the name of what it puts, and the steps of its search.
#[derive(Debug, Drop)]
pub(crate) struct Options {
    pub out: Text,
    pub steps: u32,
}
