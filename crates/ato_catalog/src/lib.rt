//! Reads a catalogue of parts.
//!
//! The bytes of comma-separated text come in; the catalogue's columns and rows go out, or the first
//! fault in them. `IsCatalogue` of specs/Catalogue.antt says that a `Catalog` is what the bytes hold,
//! and `IsFault` that a fault is their first: both over the records alone, by the header, row by row
//! and cell by cell. By the laws of proofs/OneCatalogue.antt bytes hold one catalogue at most, or have
//! one first fault at most, and never both. A cell under an attribute is the text of a quantity, as
//! `ato_units` reads it.
#![tactic(auto)]

mod cells;
mod header;
mod layout;
mod memo;
mod parts;
mod prices;
mod reading;
mod records;
mod rows;
mod values;

pub use header::Column;
pub use reading::{Catalog, read_catalog};
pub use rows::CatalogRow;
