ghost use Rattle.std.specs.Prelude.{◌≡◌, ◌<◌, ◌≤◌, ◌↔◌, ◌∷◌, ◌++◌, List, length, map, IsTrue, IfOk, IfErr, Ok, Err};
ghost use Rattle.ato_base.specs.declared.faults.Fault.{Fault};
ghost use Rattle.ato_base.specs.declared.faults.Refusal.TheVariants as refusals;
ghost use Rattle.ato_base.specs.declared.tokens.Token.{Token};
ghost use Rattle.ato_ast.specs.FileKinds.{file_kinds};
ghost use Rattle.ato_ast.specs.declared.blocks.File.{File};
ghost use Rattle.ato_parser.specs.Faults.{Answers, IsFault, IsRefused, IsTree, deepest, fault_at};
ghost use Rattle.ato_parser.specs.FileReading.{Gives, whole};
ghost use Rattle.ato_parser.specs.Tokens.{EndsOnce, is_end};

use crate::cursor::Tokens;
use crate::files::file;
use crate::stop::Stop;
use ato_ast::File;
use ato_base::{Fault, FaultKind, List, Place, Refusal, Token, TokenKind};
use std::alloc::Global;

/// Whether a token of this kind is END.
fn is_end(kind: TokenKind) -> bool
    ensures { result ≡ is_end kind }
{
    matches!(kind, TokenKind::End)
}

/// Whether END is the last of the tokens, and no other one is.
pub fn ends_once(tokens: &[Token]) -> bool
    ensures { IsTrue result ↔ EndsOnce tokens.now }
{
    for (place, token) in tokens.iter().enumerate() {
        if is_end(token.kind) {
            return tokens.len() - place == 1;
        }
    }
    false
}

/// The file of all the tokens.
#[tactic(auto, unfolding(crate::specs::FileReading::whole))]
fn whole(alloc: Global, tokens: &[Token]) -> Result<File, Stop>
    ensures { Gives (whole deepest tokens.now) result }
{
    let mut ahead = Tokens::new(tokens);
    file(alloc, &mut ahead)
}

/// The refusal for a fault at the token from which on so many are left.
fn refusal(alloc: Global, kind: FaultKind, tokens: &[Token], left: usize) -> Refusal
    requires some { 0 < left }
    requires there { left ≤ length tokens.now }
    ensures { (front rest : List Token) (bad : Token) → tokens.now ≡ front ++ bad ∷ rest → left ≡ length (bad ∷ rest) → result ≡ Refusal.Fault (fault_at kind bad) }
{
    let bad = tokens[tokens.len() - left];
    Refusal::Fault(Fault {
        kind,
        at: Place::Source(bad.at),
        other: None,
        path: List::new(alloc),
    })
}

/// The tree of the tokens, or the refusal for their fault. The other clauses of [`parse`] follow from these two, since tokens
/// have one tree or one fault.
fn answer(alloc: Global, tokens: &[Token]) -> Result<File, Refusal>
    requires { EndsOnce tokens.now }
    ensures tree { IfOk result (IsTree tokens.now) }
    ensures refused { IfErr result (IsRefused tokens.now) }
{
    match whole(alloc, tokens) {
        Ok(file) => Ok(file),
        Err(Stop::NoMemory) => Err(Refusal::NoMemory),
        Err(Stop::Syntax(left)) => Err(refusal(alloc, FaultKind::Syntax, tokens, left)),
        Err(Stop::TooDeep(left)) => Err(refusal(alloc, FaultKind::TooDeep, tokens, left)),
    }
}

/// The tree of a source file's tokens by the grammar of docs/LANGUAGE.md, or the fault of the first token that does not fit: TooDeep at
/// an open parenthesis, the 65th inside the others, that would fit if one more might stand, and else Syntax. The place of a fault is
/// its token's, and the place of a part of the tree is that of its tokens. The names have their numbers by a table that begins with `abs`,
/// `max` and `min`. END has to be the last token and no other one, which [`ends_once`] tests.
///
/// # Errors
///
/// The fault, or want of memory.
pub fn parse(alloc: Global, tokens: &[Token]) -> Result<File, Refusal>
    requires { EndsOnce tokens.now }
    ensures tree { IfOk result (IsTree tokens.now) }
    ensures kinds { IfOk result (λ f. file_kinds f ≡ map (λ (t : Token). t.kind) tokens.now) }
    ensures refused { IfErr result (IsRefused tokens.now) }
    ensures tree_given { (f : File) → IsTree tokens.now f → Answers (Ok f) result }
    ensures fault_given { (f : Fault) → IsFault tokens.now f → Answers (Err (refusals.Fault f)) result }
{
    answer(alloc, tokens)
}
