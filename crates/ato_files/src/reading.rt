//! The tree of a file's bytes, and the files that it mentions.
ghost use Rattle.std.specs.Prelude.{◌≡◌, ◌<◌, ◌^◌, ℕ, List, All, IfOk, IfErr, None, OnOk, length};
ghost use Rattle.ato_base.specs.declared.faults.Refusal.TheVariants as refusals;
ghost use Rattle.ato_base.specs.declared.places.FileId.{FileId};
ghost use Rattle.ato_ast.specs.declared.blocks.File.{File};
ghost use Rattle.ato_lexer.specs.Tokens.{AreTokens};
ghost use Rattle.ato_parser.specs.Faults.{IsRefused, IsTree};
ghost use Rattle.ato_files.specs.Faults.{fault};
ghost use Rattle.ato_files.specs.Walks.{HasNext, HasText, HasTree, IsStopped, IsTooMany, IsUnreadable, Notes, tree_mentions};

use crate::known::FileNames;
use crate::mentions::{mentions, note};
use ato_ast::File;
use ato_base::{Fault, FaultKind, FileId, List, NameTable, Place, Refusal, Span};
use ato_lexer::{lex, pieces_are_longest, pieces_are_slices, tokens_are_pieces};
use ato_parser::parse;
use std::alloc::Global;

/// The tree of a file's bytes, with the names of the table and those of the file; or its first fault.
pub(crate) fn read_tree(
    alloc: Global,
    bytes: &[u8],
    file: FileId,
    names: &mut NameTable,
) -> Result<File, Refusal>
    requires { length bytes.now < 2 ^ 32 }
    ensures tree { IfOk result (HasTree bytes.now file names.old names.new) }
    ensures refused { IfErr result (IsUnreadable bytes.now file names.old) }
{
    match lex(alloc, bytes, file, names) {
        Err(refusal) => Err(refusal),
        Ok(tokens) => parse(alloc, tokens.as_slice()),
    }
}

/// What stands between the quotes of a file's imports is a text.
fn imports_are_texts()
    ensures { (bytes : List ℕ) (file : FileId) (old new : List (List ℕ)) (tree : File) → HasTree bytes file old new tree → All (HasText bytes) (tree_mentions tree) }
{
    pieces_are_slices();
    pieces_are_longest();
    tokens_are_pieces();
}

/// The refusal for a string with which too many files are known.
fn too_many(alloc: Global, at: Span) -> Refusal
    ensures { result ≡ refusals.Fault (fault FaultKind.TooManyFiles at) }
{
    Refusal::Fault(Fault {
        kind: FaultKind::TooManyFiles,
        at: Place::Source(at),
        other: None,
        path: List::new(alloc),
    })
}

/// Makes the files that a tree mentions known, where these are not too many.
fn note_tree(alloc: Global, known: &mut FileNames, bytes: &[u8], tree: &File) -> Result<(), Refusal>
    requires { All (HasText bytes.now) (tree_mentions tree.now) }
    ensures noted { OnOk result (Notes known.old known.new bytes.now (tree_mentions tree.now) None) }
    ensures many { IfErr result (IsTooMany bytes.now known.old (tree_mentions tree.now)) }
{
    let texts = mentions(alloc, tree)?;
    match note(known, bytes, texts.as_slice())? {
        None => Ok(()),
        Some(text) => Err(too_many(alloc, text.at)),
    }
}

/// The tree of a file's bytes as of [`read_tree`], with the files that it mentions made known; or its first fault.
pub(crate) fn read_next(
    alloc: Global,
    bytes: &[u8],
    file: FileId,
    names: &mut NameTable,
    known: &mut FileNames,
) -> Result<File, Refusal>
    requires { length bytes.now < 2 ^ 32 }
    ensures next { IfOk result (HasNext bytes.now file names.old names.new known.old known.new) }
    ensures stopped { IfErr result (IsStopped bytes.now file names.old known.old) }
{
    match read_tree(alloc, bytes, file, names) {
        Err(refusal) => Err(refusal),
        Ok(tree) => {
            imports_are_texts();
            match note_tree(alloc, known, bytes, &tree) {
                Err(refusal) => Err(refusal),
                Ok(()) => Ok(tree),
            }
        }
    }
}
