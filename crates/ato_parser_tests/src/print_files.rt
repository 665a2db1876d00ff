//! Files, printed with their places.
use crate::print_exprs::{Scene, put_at, put_expr, put_named, put_names, put_quoted};
use crate::print_stmts::put_stmt;
use crate::runs::{are_kinds, named_tokens, tree_of};
use ato_ast::{Block, BlockKind, File, Head, Item, Line, Stmt, Value, flat};
use ato_base::{NameTable, NoMemory};
use std::alloc::Global;

/// What a head is of which parts, up to its end.
fn put_head_parts(out: &mut String, scene: &Scene<'_>, head: &Head) -> Result<(), NoMemory> {
    match head {
        Head::Pass(_) => {
            out.push_str("pass(")?;
            Ok(())
        }
        Head::Docs(text) => {
            out.push_str("docs(")?;
            put_quoted(out, scene, text)
        }
        Head::Import(names, _) => {
            out.push_str("import(")?;
            put_names(out, scene, names.as_slice())
        }
        Head::ImportFrom(named, text, _) => {
            out.push_str("import(")?;
            put_named(out, scene, named)?;
            out.push_str(" from ")?;
            put_quoted(out, scene, text)
        }
        Head::From(text, names, _) => {
            out.push_str("from(")?;
            put_quoted(out, scene, text)?;
            out.push_str(" import ")?;
            put_names(out, scene, names.as_slice())
        }
    }
}

/// A head as what it is, its parts, and its place.
fn put_head(out: &mut String, scene: &Scene<'_>, head: &Head) -> Result<(), NoMemory> {
    put_head_parts(out, scene, head)?;
    out.push_str(")")?;
    put_at(out, scene, head.at())
}

/// Heads with semicolons between and at the end.
fn put_heads(out: &mut String, scene: &Scene<'_>, line: &Line<Head>) -> Result<(), NoMemory> {
    for (place, head) in line.parts.as_slice().iter().enumerate() {
        if place > 0 {
            out.push_str("; ")?;
        }
        put_head(out, scene, head)?;
    }
    out.push_str(if line.tail { ";" } else { "" })?;
    Ok(())
}

/// Statements with semicolons between and at the end.
fn put_line(out: &mut String, scene: &Scene<'_>, line: &Line<Stmt>) -> Result<(), NoMemory> {
    for (place, stmt) in line.parts.as_slice().iter().enumerate() {
        if place > 0 {
            out.push_str("; ")?;
        }
        put_stmt(out, scene, stmt)?;
    }
    out.push_str(if line.tail { ";" } else { "" })?;
    Ok(())
}

/// The lines of a block, each behind a line end where they are indented.
fn put_lines(out: &mut String, scene: &Scene<'_>, block: &Block) -> Result<(), NoMemory> {
    for line in block.lines.as_slice() {
        out.push_str(if block.inline { " " } else { "\n  " })?;
        put_line(out, scene, line)?;
    }
    Ok(())
}

fn put_block(out: &mut String, scene: &Scene<'_>, block: &Block) -> Result<(), NoMemory> {
    out.push_str(match block.kind {
        BlockKind::Module => "module ",
        BlockKind::Component => "component ",
        BlockKind::Interface => "interface ",
    })?;
    put_named(out, scene, &block.name)?;
    if let Some(parent) = &block.parent {
        out.push_str(" from ")?;
        put_named(out, scene, parent)?;
    }
    out.push_str(":")?;
    put_lines(out, scene, block)
}

fn put_item(out: &mut String, scene: &Scene<'_>, item: &Item) -> Result<(), NoMemory> {
    match item {
        Item::Heads(line) => put_heads(out, scene, line),
        Item::Block(block) => put_block(out, scene, block),
    }
}

/// The pieces of a file, with line ends between.
fn put_file(out: &mut String, scene: &Scene<'_>, file: &File) -> Result<(), NoMemory> {
    for (place, item) in file.items.as_slice().iter().enumerate() {
        if place > 0 {
            out.push_str("\n")?;
        }
        put_item(out, scene, item)?;
    }
    Ok(())
}

/// The one line of a file of one block of one line.
fn only_line(file: &File) -> Option<&Line<Stmt>> {
    match file.items.as_slice() {
        [Item::Block(block)] => match block.lines.as_slice() {
            [line] => Some(line),
            _ => None,
        },
        _ => None,
    }
}

/// What is printed of a file.
#[derive(Clone, Copy, Debug, PartialEq, Eq)]
pub(crate) enum Shown {
    /// All.
    File,
    /// The one line of its one block.
    Line,
    /// The expression that is assigned there.
    Expr,
}

/// The expression that a line of one assignment assigns.
fn put_assigned(out: &mut String, scene: &Scene<'_>, line: &Line<Stmt>) -> Result<(), NoMemory> {
    match line.parts.as_slice() {
        [Stmt::Assign(_, Value::Expr(expr), _)] => put_expr(out, scene, expr),
        _ => Ok(()),
    }
}

fn put_shown(
    out: &mut String,
    scene: &Scene<'_>,
    file: &File,
    shown: Shown,
) -> Result<(), NoMemory> {
    if shown == Shown::File {
        return put_file(out, scene, file);
    }
    match only_line(file) {
        None => Ok(()),
        Some(line) if shown == Shown::Line => put_line(out, scene, line),
        Some(line) => put_assigned(out, scene, line),
    }
}

/// Whether a text that stands behind another has a tree that is printed so, and written out as its tokens.
pub(crate) fn is_shown(
    alloc: Global,
    before: &str,
    row: &(&str, &str),
    shown: Shown,
) -> Result<bool, NoMemory> {
    let (text, want) = *row;
    let all = format!(in alloc; "{before}{text}")?;
    let mut names = NameTable::new(alloc)?;
    let tokens = named_tokens(alloc, &all, &mut names)?;
    let file = tree_of(alloc, tokens.as_slice())?;
    let scene = Scene {
        names: &names,
        from: before.len().min(1_000) as u32,
    };
    let mut out = String::new(alloc);
    put_shown(&mut out, &scene, &file, shown)?;
    let kinds = flat(alloc, &file)?;
    Ok(out.as_str() == want && are_kinds(kinds.as_slice(), tokens.as_slice()))
}
