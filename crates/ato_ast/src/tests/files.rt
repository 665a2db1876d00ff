use super::stmts::{push_asserts, push_points, push_values};
use super::{AT, named, one, quoted};
use crate::{Block, BlockKind, File, Head, Item, Line, Stmt};
use ato_base::{List, NoMemory};
use std::alloc::Global;

/// A head of each form.
pub fn heads(alloc: Global) -> Result<List<Head>, NoMemory> {
    let mut names = one(alloc, named(3))?;
    names.push(named(4))?;
    let mut heads = List::new(alloc);
    heads.push(Head::ImportFrom(named(3), quoted(), AT))?;
    heads.push(Head::Import(names, AT))?;
    heads.push(Head::From(quoted(), one(alloc, named(5))?, AT))?;
    heads.push(Head::Docs(quoted()))?;
    heads.push(Head::Pass(AT))?;
    Ok(heads)
}

/// A statement of each form.
pub fn stmts(alloc: Global) -> Result<List<Stmt>, NoMemory> {
    let mut stmts = List::new(alloc);
    push_points(alloc, &mut stmts)?;
    push_values(alloc, &mut stmts)?;
    push_asserts(alloc, &mut stmts)?;
    stmts.push(Stmt::Pass(AT))?;
    stmts.push(Stmt::Docs(quoted()))?;
    Ok(stmts)
}

/// A line of `pass` alone.
fn pass_line(alloc: Global) -> Result<Line<Stmt>, NoMemory> {
    Ok(Line {
        parts: one(alloc, Stmt::Pass(AT))?,
        tail: false,
    })
}

fn inline(alloc: Global, kind: BlockKind) -> Result<Item, NoMemory> {
    Ok(Item::Block(Block {
        kind,
        name: named(3),
        parent: None,
        inline: true,
        lines: one(alloc, pass_line(alloc)?)?,
    }))
}

/// A block with a line of every form of statement, and another line.
fn indented(alloc: Global) -> Result<Item, NoMemory> {
    let line = Line {
        parts: stmts(alloc)?,
        tail: true,
    };
    let mut lines = one(alloc, line)?;
    lines.push(pass_line(alloc)?)?;
    Ok(Item::Block(Block {
        kind: BlockKind::Component,
        name: named(4),
        parent: Some(named(3)),
        inline: false,
        lines,
    }))
}

/// A file of every form.
pub fn file(alloc: Global) -> Result<File, NoMemory> {
    let all = Line {
        parts: heads(alloc)?,
        tail: true,
    };
    let pass = Line {
        parts: one(alloc, Head::Pass(AT))?,
        tail: false,
    };
    let mut items = one(alloc, Item::Heads(all))?;
    items.push(Item::Heads(pass))?;
    items.push(inline(alloc, BlockKind::Module)?)?;
    items.push(indented(alloc)?)?;
    items.push(inline(alloc, BlockKind::Interface)?)?;
    Ok(File { items })
}
