//! Reads a catalogue of parts.
//!
//! The bytes of comma-separated text come in; the catalogue's columns and rows go out, or the first
//! fault in them. Which these are is `contents_of` of specs/Contents.antt, in whole numbers alone:
//! layers above speak of the row with a number and of its ranges by that definition over the bytes.
//! `IsCatalogue` of specs/Catalogue.antt says that a `Catalog` is what the bytes hold, and
//! proofs/CatalogueLaws.antt ties the two row by row and cell by cell.
#![tactic(auto)]

mod cells;
mod fractions;
mod header;
mod parts;
mod ranges;
mod reading;
mod records;
mod rows;
#[cfg(test)]
mod tests;

pub use fractions::whole;
pub use header::Column;
pub use ranges::number;
pub use reading::{Catalog, read_catalog};
pub use rows::CatalogRow;
