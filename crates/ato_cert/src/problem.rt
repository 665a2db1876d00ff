//! The problem that a certificate is about.

use ato_base::List;
use ato_frac::Frac;

/// A candidate of a slot: a row of the catalogue with the range of its attribute.
#[derive(Clone, Copy, Debug, PartialEq, Eq)]
pub struct Row {
    /// Its number in the catalogue, from 1.
    pub number: u32,
    /// The least value of its attribute.
    pub low: Frac,
    /// The greatest value of its attribute.
    pub high: Frac,
}

/// A slot of the board with its candidates, and the target of its one check.
#[derive(Debug, Drop)]
pub struct Slot {
    /// The candidates, their numbers rising.
    pub rows: List<Row>,
    /// The least value that the check allows.
    pub low: Frac,
    /// The greatest value that the check allows.
    pub high: Frac,
}

/// What has to be picked: a row for the slot, or nothing where there is none.
#[derive(Debug, Drop)]
pub struct Problem {
    /// The slot, if there is one.
    pub slot: Option<Slot>,
}
