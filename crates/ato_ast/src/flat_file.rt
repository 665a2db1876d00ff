//! Lines, heads, blocks and files, written out as the kinds of tokens.

ghost use Rattle.std.specs.Prelude.{◌≡◌, [], ◌∷◌, ◌++◌, IfOk, OnOk};
ghost use Rattle.std.specs.List.{flat_map};
ghost use Rattle.ato_base.specs.declared.keywords.Mark.TheVariants as mark;
ghost use Rattle.ato_base.specs.declared.tokens.TokenKind.TheVariants as kinds;
ghost use Rattle.ato_ast.specs.PathKinds as paths;
ghost use Rattle.ato_ast.specs.StmtKinds as stmts;
ghost use Rattle.ato_ast.specs.FileKinds as spec;

use crate::flat_exprs::push_names;
use crate::flat_stmts::push_stmt;
use crate::{Block, BlockKind, File, Head, Item, Line, Named, Quoted, Stmt};
use ato_base::{Keyword, List, Mark, NoMemory, TokenKind};
use std::alloc::Global;

fn push_head(out: &mut List<TokenKind>, head: &Head) -> Result<(), NoMemory>
    ensures { OnOk result (out.new ≡ out.old ++ spec.head_kinds head.now) }
{
    match head {
        Head::ImportFrom(name, file, _) => {
            out.push(TokenKind::Keyword(Keyword::Import))?;
            out.push(TokenKind::Name(name.name))?;
            out.push(TokenKind::Keyword(Keyword::From))?;
            out.push(TokenKind::Str(file.contents))
        }
        Head::Import(names, _) => {
            out.push(TokenKind::Keyword(Keyword::Import))?;
            push_names(out, Mark::Comma, names.as_slice())
        }
        Head::From(file, names, _) => {
            out.push(TokenKind::Keyword(Keyword::From))?;
            out.push(TokenKind::Str(file.contents))?;
            out.push(TokenKind::Keyword(Keyword::Import))?;
            push_names(out, Mark::Comma, names.as_slice())
        }
        Head::Docs(text) => out.push(TokenKind::Str(text.contents)),
        Head::Pass(_) => out.push(TokenKind::Keyword(Keyword::Pass)),
    }
}

/// The end of a line, with its semicolon.
fn push_tail(out: &mut List<TokenKind>, tail: bool) -> Result<(), NoMemory>
    ensures { OnOk result (out.new ≡ out.old ++ (spec.tail_kinds tail ++ kinds.Newline ∷ [])) }
{
    if tail {
        out.push(TokenKind::Mark(Mark::Semicolon))?;
    }
    out.push(TokenKind::Newline)
}

/// Heads, each with a semicolon before it.
fn push_more_heads(out: &mut List<TokenKind>, more: &[Head]) -> Result<(), NoMemory>
    ensures { OnOk result (out.new ≡ out.old ++ paths.marked mark.Semicolon spec.head_kinds more.now) }
{
    for head in more {
        out.push(TokenKind::Mark(Mark::Semicolon))?;
        push_head(out, head)?;
    }
    Ok(())
}

/// Heads with semicolons between.
fn push_heads(out: &mut List<TokenKind>, heads: &[Head]) -> Result<(), NoMemory>
    ensures { OnOk result (out.new ≡ out.old ++ paths.joined mark.Semicolon spec.head_kinds heads.now) }
{
    match heads {
        [] => Ok(()),
        [first, more @ ..] => {
            push_head(out, first)?;
            push_more_heads(out, more)
        }
    }
}

fn push_headline(out: &mut List<TokenKind>, line: &Line<Head>) -> Result<(), NoMemory>
    ensures { OnOk result (out.new ≡ out.old ++ spec.line_kinds spec.head_kinds line.now) }
{
    push_heads(out, line.parts.as_slice())?;
    push_tail(out, line.tail)
}

/// Statements, each with a semicolon before it.
fn push_more_stmts(out: &mut List<TokenKind>, more: &[Stmt]) -> Result<(), NoMemory>
    ensures { OnOk result (out.new ≡ out.old ++ paths.marked mark.Semicolon stmts.stmt_kinds more.now) }
{
    for stmt in more {
        out.push(TokenKind::Mark(Mark::Semicolon))?;
        push_stmt(out, stmt)?;
    }
    Ok(())
}

/// Statements with semicolons between.
fn push_stmts(out: &mut List<TokenKind>, parts: &[Stmt]) -> Result<(), NoMemory>
    ensures { OnOk result (out.new ≡ out.old ++ paths.joined mark.Semicolon stmts.stmt_kinds parts.now) }
{
    match parts {
        [] => Ok(()),
        [first, more @ ..] => {
            push_stmt(out, first)?;
            push_more_stmts(out, more)
        }
    }
}

fn push_line(out: &mut List<TokenKind>, line: &Line<Stmt>) -> Result<(), NoMemory>
    ensures { OnOk result (out.new ≡ out.old ++ spec.line_kinds stmts.stmt_kinds line.now) }
{
    push_stmts(out, line.parts.as_slice())?;
    push_tail(out, line.tail)
}

fn push_lines(out: &mut List<TokenKind>, lines: &[Line<Stmt>]) -> Result<(), NoMemory>
    ensures { OnOk result (out.new ≡ out.old ++ spec.lines_kinds lines.now) }
{
    for line in lines {
        push_line(out, line)?;
    }
    Ok(())
}

fn block_kind(kind: BlockKind) -> TokenKind
    ensures { result ≡ spec.block_kind kind }
{
    match kind {
        BlockKind::Module => TokenKind::Keyword(Keyword::Module),
        BlockKind::Component => TokenKind::Keyword(Keyword::Component),
        BlockKind::Interface => TokenKind::Keyword(Keyword::Interface),
    }
}

fn push_parent(out: &mut List<TokenKind>, parent: &Option<Named>) -> Result<(), NoMemory>
    ensures { OnOk result (out.new ≡ out.old ++ spec.parent_kinds parent.now) }
{
    match parent {
        None => Ok(()),
        Some(name) => {
            out.push(TokenKind::Keyword(Keyword::From))?;
            out.push(TokenKind::Name(name.name))
        }
    }
}

/// The lines of a block, inline or indented.
fn push_body(out: &mut List<TokenKind>, inline: bool, lines: &[Line<Stmt>]) -> Result<(), NoMemory>
    ensures { OnOk result (out.new ≡ out.old ++ spec.body_kinds inline (spec.lines_kinds lines.now)) }
{
    if inline {
        return push_lines(out, lines);
    }
    out.push(TokenKind::Newline)?;
    out.push(TokenKind::Indent)?;
    push_lines(out, lines)?;
    out.push(TokenKind::Dedent)
}

#[tactic(auto, unfolding(crate::specs::FileKinds::block_kinds))]
fn push_block(out: &mut List<TokenKind>, block: &Block) -> Result<(), NoMemory>
    ensures { OnOk result (out.new ≡ out.old ++ spec.block_kinds block.now) }
{
    out.push(block_kind(block.kind))?;
    out.push(TokenKind::Name(block.name.name))?;
    push_parent(out, &block.parent)?;
    out.push(TokenKind::Mark(Mark::Colon))?;
    push_body(out, block.inline, block.lines.as_slice())
}

fn push_item(out: &mut List<TokenKind>, item: &Item) -> Result<(), NoMemory>
    ensures { OnOk result (out.new ≡ out.old ++ spec.item_kinds item.now) }
{
    match item {
        Item::Heads(line) => push_headline(out, line),
        Item::Block(block) => push_block(out, block),
    }
}

fn push_items(out: &mut List<TokenKind>, items: &[Item]) -> Result<(), NoMemory>
    ensures { OnOk result (out.new ≡ out.old ++ flat_map spec.item_kinds items.now) }
{
    for item in items {
        push_item(out, item)?;
    }
    Ok(())
}

/// The kinds of the tokens that a file is written as.
///
/// # Errors
///
/// `NoMemory` where memory runs out.
#[tactic(auto, unfolding(crate::specs::FileKinds::file_kinds))]
pub fn flat(alloc: Global, file: &File) -> Result<List<TokenKind>, NoMemory>
    ensures { IfOk result (λ kinds. kinds ≡ spec.file_kinds file.now) }
{
    let mut out = List::new(alloc);
    push_items(&mut out, file.items.as_slice())?;
    out.push(TokenKind::End)?;
    Ok(out)
}
