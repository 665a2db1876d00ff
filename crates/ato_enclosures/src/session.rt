//! A table that is being read, with the ranges over which relations are judged.

use crate::judging::print_judged;
use crate::reading::{number, operation, pair};
use ato_base::{List, NoMemory};
use ato_expr::{ExprTable, Op, Relation, Scratch};
use ato_frac::Frac;
use ato_interval::Interval;
use std::alloc::{AllocError, AllocFailed, Global};
use std::str::SplitWhitespace;

/// Why a line is not carried out.
#[derive(Debug, Drop)]
pub enum Stop {
    /// It has no meaning here.
    Form,
    /// Memory ran out.
    NoMemory,
}

impl From<NoMemory> for Stop {
    fn from(_error: NoMemory) -> Stop {
        Stop::NoMemory
    }
}

impl From<AllocError> for Stop {
    fn from(_error: AllocError) -> Stop {
        Stop::NoMemory
    }
}

impl<T: Drop> From<AllocFailed<T>> for Stop {
    fn from(_error: AllocFailed<T>) -> Stop {
        Stop::NoMemory
    }
}

/// What the lines so far have made.
#[derive(Drop)]
pub struct Session {
    alloc: Global,
    table: ExprTable,
    ranges: Vec<Interval<Frac>>,
    high: Vec<bool>,
    times: u32,
    scratch: Scratch,
}

/// Puts an operation over nodes in, where the table takes it.
fn put(table: &mut ExprTable, op: Op, children: &[u32]) -> Result<(), Stop> {
    if !table.takes(&op, children) {
        return Err(Stop::Form);
    }
    table.push(op, children)?;
    Ok(())
}

/// Puts the node of a line in.
fn push(
    alloc: Global,
    table: &mut ExprTable,
    name: &str,
    mut words: SplitWhitespace,
) -> Result<(), Stop> {
    let Some(op) = operation(name, &mut words) else {
        return Err(Stop::Form);
    };
    let mut children = Vec::new(alloc);
    for word in words {
        let Some(child) = number(Some(word)) else {
            return Err(Stop::Form);
        };
        children.push(child)?;
    }
    put(table, op, children.as_slice())
}

/// The pairs of ends of a line.
fn pairs(alloc: Global, mut words: SplitWhitespace) -> Result<List<(Frac, Frac)>, Stop> {
    let mut pairs = List::new(alloc);
    while let Some(word) = words.next() {
        let Some(ends) = pair(word, words.next()) else {
            return Err(Stop::Form);
        };
        pairs.push(ends)?;
    }
    Ok(pairs)
}

/// The ranges of some pairs of ends.
fn ranges(alloc: Global, pairs: &[(Frac, Frac)]) -> Result<Vec<Interval<Frac>>, Stop> {
    let mut ranges = Vec::new(alloc);
    for (low, high) in pairs {
        let Some(range) = Interval::new(*low, *high) else {
            return Err(Stop::Form);
        };
        ranges.push(range)?;
    }
    Ok(ranges)
}

/// The relation of a line, if it is one.
fn relation(alloc: Global, name: &str, mut words: SplitWhitespace) -> Result<Relation, Stop> {
    let Some(first) = number(words.next()) else {
        return Err(Stop::Form);
    };
    if name == "within" {
        return Ok(Relation::Within(first, pairs(alloc, words)?));
    }
    if name == "defined" {
        return Ok(Relation::Defined(first));
    }
    let Some(second) = number(words.next()) else {
        return Err(Stop::Form);
    };
    match name {
        "less" => Ok(Relation::Less(first, second)),
        "less_or_equal" => Ok(Relation::LessEq(first, second)),
        "equal" => Ok(Relation::Equal(first, second)),
        _ => Err(Stop::Form),
    }
}

impl Session {
    /// An empty table, and no range.
    pub fn new(alloc: Global) -> Session {
        Session {
            alloc,
            table: ExprTable::new(alloc),
            ranges: Vec::new(alloc),
            high: Vec::new(alloc),
            times: 1,
            scratch: Scratch::new(alloc),
        }
    }

    /// Carries out a line, and puts what it prints at the end of `out`.
    pub fn line(&mut self, line: &str, out: &mut String) -> Result<(), Stop> {
        let mut words = line.split_whitespace();
        let Some(name) = words.next() else {
            return Ok(());
        };
        match name {
            "table" => self.table = ExprTable::new(self.alloc),
            "over" => self.over(words)?,
            "times" => self.times = number(words.next()).unwrap_or(1),
            "within" | "less" | "less_or_equal" | "equal" | "defined" => {
                self.relation_line(name, words, out)?
            }
            _ => push(self.alloc, &mut self.table, name, words)?,
        }
        Ok(())
    }

    /// Takes the ranges of a line.
    fn over(&mut self, words: SplitWhitespace) -> Result<(), Stop> {
        let pairs = pairs(self.alloc, words)?;
        self.ranges = ranges(self.alloc, pairs.as_slice())?;
        self.high.clear();
        self.high.resize(self.ranges.len(), false)?;
        Ok(())
    }

    /// Carries out a line that asks for a judgement.
    fn relation_line(
        &mut self,
        name: &str,
        words: SplitWhitespace,
        out: &mut String,
    ) -> Result<(), Stop> {
        let relation = relation(self.alloc, name, words)?;
        print_judged(
            &self.table,
            &relation,
            self.ranges.as_slice(),
            self.times,
            &mut self.scratch,
            self.high.as_mut_slice(),
            out,
        )
    }
}
