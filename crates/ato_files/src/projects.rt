//! The program of an entry file.
ghost use Rattle.std.specs.Prelude.{◌≡◌, IfErr, IfOk, IfSome, drop};
ghost use Rattle.ato_outside.specs.Causes.{Counts};
ghost use Rattle.ato_outside.specs.Replies.{Asks};
ghost use Rattle.ato_files.specs.declared.program.Program.{Program};
ghost use Rattle.ato_files.specs.Answers.{CountsMissing, ForHeld, IsErrWith, IsThisProgram, IsMissingFault, IsOutFault, IsReadFault, IsRefused, IsThisFailure, IsUnplainFor, held_in};
ghost use Rattle.ato_files.specs.Loading.{most_bytes};
ghost use Rattle.ato_files.specs.Programs.{Failure, IsProgram, Stands};
ghost use Rattle.ato_files.specs.Replies.{ForReplies, replies_of};

use crate::loading::{Loading, load_files, read_files};
use crate::naming::{Named, name};
use crate::{LoadFault, Program};
use ato_outside::Shelf;
use std::alloc::Global;

/// The program of an entry, or why there is none.
fn load_program<S: Shelf>(alloc: Global, shelf: &mut S, entry: &str) -> Result<Program, LoadFault>
    ensures same { S.files shelf.new ≡ S.files shelf.old }
    ensures program { IfOk result (λ p. ForHeld (S.files shelf.old) (λ held. IsProgram held entry.now p)) }
    ensures asked { IfOk result (λ p. Asks S.gets most_bytes shelf.old (replies_of (drop 1 p.files)) shelf.new) }
    ensures refused { IfErr result (λ e. ForReplies S.gets shelf.old shelf.new (IsRefused (S.files shelf.old) entry.now e)) }
    ensures faults { Counts (S.faults shelf.old) (S.faults shelf.new) (IsErrWith IsReadFault result) }
    ensures misses { CountsMissing (S.misses shelf.old) (S.misses shelf.new) (IsUnplainFor S.gets (S.files shelf.old) shelf.old shelf.new entry.now) (IsErrWith IsMissingFault result) (IsErrWith IsOutFault result) }
{
    let Loading { names, files } = load_files(alloc, shelf, entry)?;
    match name(alloc, files.as_slice())? {
        Named::Sound(blocks) => Ok(Program {
            names,
            files,
            blocks,
        }),
        Named::Faulty(fault) => Err(LoadFault::Fault(fault, read_files(alloc, files)?)),
    }
}

/// The program of an entry file: the library, the entry and all files to which chains of imports lead from it, in load order, with their
/// trees, the table of their names, and their blocks with lineages; or the first fault of the files and their names, by docs/LANGUAGE.md.
///
/// The files are asked from the shelf under their names in load order, each once, and no other call is made; a name that is not plain is
/// not asked for. The bytes are those that the shelf replied with. Where the shelf tells what it holds, the answer is that of its files,
/// unless a read fails or memory runs out; its files stay as they are.
///
/// # Errors
///
/// The first fault, with the library and the files that were read until then, by their numbers; a file that could not be read, by its
/// name; or want of memory. After each of them the shelf's counts may be higher, and it was asked for the files up to the one where
/// loading ended.
pub fn load<S: Shelf>(alloc: Global, shelf: &mut S, entry: &str) -> Result<Program, LoadFault>
    ensures same { S.files shelf.new ≡ S.files shelf.old }
    ensures program { IfOk result (λ p. ForHeld (S.files shelf.old) (λ held. IsProgram held entry.now p)) }
    ensures asked { IfOk result (λ p. Asks S.gets most_bytes shelf.old (replies_of (drop 1 p.files)) shelf.new) }
    ensures refused { IfErr result (λ e. ForReplies S.gets shelf.old shelf.new (IsRefused (S.files shelf.old) entry.now e)) }
    ensures program_given { IfSome (S.files shelf.old) (λ files. (p : Program) → IsProgram (held_in files) entry.now p → IsThisProgram p result) }
    ensures fault_given { IfSome (S.files shelf.old) (λ files. (failure : Failure) → Stands (held_in files) entry.now failure → IsThisFailure failure result) }
    ensures faults { Counts (S.faults shelf.old) (S.faults shelf.new) (IsErrWith IsReadFault result) }
    ensures misses { CountsMissing (S.misses shelf.old) (S.misses shelf.new) (IsUnplainFor S.gets (S.files shelf.old) shelf.old shelf.new entry.now) (IsErrWith IsMissingFault result) (IsErrWith IsOutFault result) }
{
    load_program(alloc, shelf, entry)
}
