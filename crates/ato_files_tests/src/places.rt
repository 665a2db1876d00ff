//! Where the parts of a file stand.
use ato_ast::{
    Block, Compare, End, File, Head, Item, Label, Named, Path, Point, Quoted, Stmt, Value,
};
use ato_base::{List, NoMemory, Span};
use std::alloc::Global;

/// Places, in source order.
type Spots = List<Span>;

fn put_names(out: &mut Spots, names: &[Named]) -> Result<(), NoMemory> {
    for name in names {
        out.push(name.at)?;
    }
    Ok(())
}

fn put_quoted(out: &mut Spots, text: &Quoted) -> Result<(), NoMemory> {
    out.push(text.at)?;
    out.push(text.contents)
}

fn put_head(out: &mut Spots, head: &Head) -> Result<(), NoMemory> {
    out.push(head.at())?;
    match head {
        Head::ImportFrom(name, from, _) => {
            out.push(name.at)?;
            put_quoted(out, from)
        }
        Head::Import(names, _) => put_names(out, names.as_slice()),
        Head::From(from, names, _) => {
            put_quoted(out, from)?;
            put_names(out, names.as_slice())
        }
        Head::Docs(text) => put_quoted(out, text),
        Head::Pass(_) => Ok(()),
    }
}

fn put_point(out: &mut Spots, point: &Point) -> Result<(), NoMemory> {
    out.push(point.at())?;
    match point {
        Point::Signal(name, _) => out.push(name.at),
        Point::Pin(Label::Text(text), _) => put_quoted(out, text),
        Point::Pin(label, _) => out.push(label.at()),
    }
}

fn put_path(out: &mut Spots, path: &Path) -> Result<(), NoMemory> {
    out.push(path.at)?;
    put_names(out, path.steps.as_slice())
}

fn put_end(out: &mut Spots, end: &End) -> Result<(), NoMemory> {
    out.push(end.at())?;
    match end {
        End::Point(point) => put_point(out, point),
        End::Path(path) => put_path(out, path),
    }
}

fn put_maybe(out: &mut Spots, value: &Option<Value>) -> Result<(), NoMemory> {
    match value {
        None => Ok(()),
        Some(value) => out.push(value.at()),
    }
}

/// The place of an expression stands for those of its parts.
fn put_stmt(out: &mut Spots, stmt: &Stmt) -> Result<(), NoMemory> {
    out.push(stmt.at())?;
    match stmt {
        Stmt::Pass(_) => Ok(()),
        Stmt::Docs(text) => put_quoted(out, text),
        Stmt::Point(point, None, _) => put_point(out, point),
        Stmt::Point(point, Some(end), _) => {
            put_point(out, point)?;
            put_end(out, end)
        }
        Stmt::Connect(path, end, _) => {
            put_path(out, path)?;
            put_end(out, end)
        }
        Stmt::Replace(path, name, _) => {
            put_path(out, path)?;
            out.push(name.at)
        }
        Stmt::Assign(path, value, _) => {
            put_path(out, path)?;
            out.push(value.at())
        }
        Stmt::Make(name, of, _) => {
            out.push(name.at)?;
            out.push(of.at)
        }
        Stmt::Declare(name, of, value, _) => {
            out.push(name.at)?;
            out.push(of.at)?;
            put_maybe(out, value)
        }
        Stmt::Assert(expr, Compare::Sides(_, other), _) => {
            out.push(expr.at())?;
            out.push(other.at())
        }
        Stmt::Assert(expr, Compare::Within(_), _) => out.push(expr.at()),
    }
}

fn put_block(out: &mut Spots, block: &Block) -> Result<(), NoMemory> {
    out.push(block.name.at)?;
    if let Some(parent) = &block.parent {
        out.push(parent.at)?;
    }
    for line in block.lines.as_slice() {
        for stmt in line.parts.as_slice() {
            put_stmt(out, stmt)?;
        }
    }
    Ok(())
}

fn put_item(out: &mut Spots, item: &Item) -> Result<(), NoMemory> {
    match item {
        Item::Block(block) => put_block(out, block),
        Item::Heads(line) => {
            for head in line.parts.as_slice() {
                put_head(out, head)?;
            }
            Ok(())
        }
    }
}

/// The places of a file's parts.
fn places_of(alloc: Global, file: &File) -> Result<Spots, NoMemory> {
    let mut out = List::new(alloc);
    for item in file.items.as_slice() {
        put_item(&mut out, item)?;
    }
    Ok(out)
}

/// Whether the parts of two files stand at the same places.
pub(crate) fn are_places(alloc: Global, one: &File, other: &File) -> Result<bool, NoMemory> {
    let places = places_of(alloc, one)?;
    let others = places_of(alloc, other)?;
    for (a, b) in places.as_slice().iter().zip(others.as_slice().iter()) {
        if *a != *b {
            return Ok(false);
        }
    }
    Ok(places.len() == others.len())
}
