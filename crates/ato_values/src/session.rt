//! A table that is being read, with the point at which its nodes are worked out.

use crate::reading::{fraction, number, operation};
use ato_base::NoMemory;
use ato_expr::{ExprTable, Op, Point, Scratch, value_at};
use ato_frac::Frac;
use std::alloc::{AllocError, AllocFailed, Global};
use std::str::SplitWhitespace;

/// Why a line is not carried out.
#[derive(Debug, Drop)]
pub enum Stop {
    /// It has no meaning here.
    Form,
    /// Memory ran out.
    NoMemory,
}

impl From<NoMemory> for Stop {
    fn from(_error: NoMemory) -> Stop {
        Stop::NoMemory
    }
}

impl From<AllocError> for Stop {
    fn from(_error: AllocError) -> Stop {
        Stop::NoMemory
    }
}

impl<T: Drop> From<AllocFailed<T>> for Stop {
    fn from(_error: AllocFailed<T>) -> Stop {
        Stop::NoMemory
    }
}

/// What the lines so far have made.
#[derive(Drop)]
pub struct Session {
    alloc: Global,
    table: ExprTable,
    world: Vec<Frac>,
    scratch: Scratch,
}

/// What is printed of what a node comes to.
fn point_text(alloc: Global, point: &Point) -> Result<String, AllocError> {
    match point {
        Point::Value(value) => {
            let (numer, denom) = (value.numer(), value.denom());
            format!(in alloc; "{numer}/{denom}")
        }
        Point::Undefined => String::from_str(alloc, "undefined"),
        Point::Wide => String::from_str(alloc, "wide"),
    }
}

/// The value of a node at a point, worked out so often.
fn value(
    table: &ExprTable,
    root: u32,
    world: &[Frac],
    times: u32,
    scratch: &mut Scratch,
) -> Result<Point, Stop> {
    if table.count() <= root || world.len() < table.variables() {
        return Err(Stop::Form);
    }
    scratch.reserve(table)?;
    for _ in 1..times {
        value_at(table, root, world, scratch);
    }
    Ok(value_at(table, root, world, scratch))
}

/// Puts an operation over nodes in, where the table takes it.
fn put(table: &mut ExprTable, op: Op, children: &[u32]) -> Result<(), Stop> {
    if !table.takes(&op, children) {
        return Err(Stop::Form);
    }
    table.push(op, children)?;
    Ok(())
}

/// Puts the node of a line in.
fn push(
    alloc: Global,
    table: &mut ExprTable,
    name: &str,
    mut words: SplitWhitespace,
) -> Result<(), Stop> {
    let Some(op) = operation(name, &mut words) else {
        return Err(Stop::Form);
    };
    let mut children = Vec::new(alloc);
    for word in words {
        let Some(child) = number(Some(word)) else {
            return Err(Stop::Form);
        };
        children.push(child)?;
    }
    put(table, op, children.as_slice())
}

/// The entries of a point.
fn entries(alloc: Global, words: SplitWhitespace) -> Result<Vec<Frac>, Stop> {
    let mut world = Vec::new(alloc);
    for word in words {
        let Some(entry) = fraction(word) else {
            return Err(Stop::Form);
        };
        world.push(entry)?;
    }
    Ok(world)
}

impl Session {
    /// An empty table, and a point without entries.
    pub fn new(alloc: Global) -> Session {
        Session {
            alloc,
            table: ExprTable::new(alloc),
            world: Vec::new(alloc),
            scratch: Scratch::new(alloc),
        }
    }

    /// Carries out a line, and puts what it prints at the end of `out`.
    pub fn line(&mut self, line: &str, out: &mut String) -> Result<(), Stop> {
        let mut words = line.split_whitespace();
        let Some(name) = words.next() else {
            return Ok(());
        };
        match name {
            "table" => self.table = ExprTable::new(self.alloc),
            "at" => self.world = entries(self.alloc, words)?,
            "value" => self.value_line(words, out)?,
            _ => push(self.alloc, &mut self.table, name, words)?,
        }
        Ok(())
    }

    /// Carries out a line that asks for a value.
    fn value_line(&mut self, mut words: SplitWhitespace, out: &mut String) -> Result<(), Stop> {
        let Some(root) = number(words.next()) else {
            return Err(Stop::Form);
        };
        let times = number(words.next()).unwrap_or(1);
        let point = value(
            &self.table,
            root,
            self.world.as_slice(),
            times,
            &mut self.scratch,
        )?;
        out.push_str(point_text(self.alloc, &point)?.as_str())?;
        out.push_str("\n")?;
        Ok(())
    }
}
