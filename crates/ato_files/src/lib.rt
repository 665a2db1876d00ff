//! The files of a project, what their names mean, lineages and declarations.
//!
//! What comes in is a shelf of files and the name of an entry file. What goes out is the program: the trees of all files to which chains
//! of imports lead, the table of their names, and their blocks with lineages; or why there is none. The contract of [`load`] is `IsProgram`
//! and `Stands` of `specs/Programs`; `specs/Answers` says what each answer is with the calls of the shelf that it took, and `specs/Replies`
//! what these calls replied. That of [`Program::find_block`] is `found_block` of `specs/Programs`. `specs/Files` says which files a project has and in
//! which order, `specs/Loading` how the next one is loaded and what is wrong with it, `specs/Blocks` what names mean, `specs/Lineages` and
//! `specs/Members` what blocks descend from and declare, and `specs/NameFaults` what is wrong with names. The laws say that a project has one
//! fault or one program at most, which files are loaded and in which order, and that the library is what its text says.
#![tactic(auto)]

mod ancestors;
mod block_members;
mod block_parents;
mod block_places;
#[cfg(test)]
mod block_tests;
mod block_types;
mod clashes;
mod endings;
mod fetching;
mod file_faults;
mod file_map;
mod file_names;
mod finding;
mod first_import;
mod imports;
mod infos;
mod inherited;
mod known;
mod laws;
mod least;
mod library;
mod lineages;
mod loading;
mod meanings;
mod members;
mod mentions;
mod name_faults;
mod name_map;
mod naming;
mod number_set;
mod own_names;
mod parents;
mod pieces;
mod places;
mod program;
mod projects;
mod reading;
mod tables;
mod walking;

pub use laws::{
    least_is_first, library_has_tokens, library_has_tree, lineages_end, loads_all, names_differ,
    nearer_first, none_with_program, one_fault, one_program, sound_names_have_blocks,
};
pub use meanings::Meanings;
pub use pieces::text_at;
pub use program::{BlockInfo, LoadFault, Program, Source, SourceFile};
pub use projects::load;
