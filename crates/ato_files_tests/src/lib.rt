//! Which projects load, and which fault or unread file stands in the others, on sources whose answers were
//! worked out by hand from the rules of files and names.
//!
//! This crate has tests alone, which stand above `ato_files` so that it is not proved once more together
//! with them. An answer is printed in one line, so that a table has each project with its line:
//!
//! - `good main.ato b.ato: 1.1(11 10) 2.0(11)` for a program: its files without the library, and for each of
//!   their blocks the file, the item and the lineage. The library's blocks have the numbers 0 to 9.
//! - `F8 FileMissing 1:14..21 of main.ato b.ato?` for a fault: its kind, the file and the bytes at which it
//!   stands, and the sources that come with it, without the library; `?` stands behind a name that was asked
//!   for but is no source.
//! - `unread b.ato of main.ato b.ato` for a file that could not be read, with all names that were asked for.
//!
//! The shelf keeps the names that it is asked for. So each line says that these files were read once each, in
//! this order, and no others.
#![tactic(auto)]

#[cfg(test)]
mod answers;
#[cfg(test)]
mod chains;
#[cfg(test)]
mod crowds;
#[cfg(test)]
mod dull;
#[cfg(test)]
mod file_names;
#[cfg(test)]
mod finding;
#[cfg(test)]
mod first_faults;
#[cfg(test)]
mod imports;
#[cfg(test)]
mod inherited;
#[cfg(test)]
mod kinds;
#[cfg(test)]
mod large;
#[cfg(test)]
mod least;
#[cfg(test)]
mod library;
#[cfg(test)]
mod lineages;
#[cfg(test)]
mod members;
#[cfg(test)]
mod missing;
#[cfg(test)]
mod places;
#[cfg(test)]
mod plain;
#[cfg(test)]
mod shelves;
#[cfg(test)]
mod types;
