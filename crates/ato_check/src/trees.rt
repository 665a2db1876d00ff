//! The lines of a tree.
ghost use Rattle.std.specs.Prelude.{◌≡◌, [], ◌↔◌, ◌<◌, ◌^◌, IsTrue, MatchOption, MatchResult};
ghost use Rattle.ato_cert.specs.Problems.{AreRising};
ghost use Rattle.ato_cert.specs.Justified.{IsMiddle};
ghost use Rattle.ato_cert.specs.Halves.{AreHalves};
ghost use Rattle.ato_cert.specs.Nodes.{tree_nodes};
ghost use Rattle.ato_check.specs.FirstBad.{IsBadAt};
ghost use Rattle.ato_check.specs.Parts.{FailsAtPoint, IsCheckedTree};

use crate::failing::fails_at;
use ato_cert::{PickTree, Row, Slot, halves};
use ato_frac::Frac;

/// Whether a line `empty` with this slot is justified: no row is left.
fn empty_is_right(rows: &[Row], slot: u32) -> bool
    ensures { IsTrue result ↔ ((slot ≡ 1) × (rows.now ≡ [])) }
{
    slot == 1 && rows.len() == 0
}

/// Whether a line `fails` with this check and point is justified: the point is one fraction, at which
/// the check fails.
fn fails_is_right(slot: &Slot, rows: &[Row], check: u32, point: &[Frac]) -> bool
    ensures { IsTrue result ↔ ((check ≡ 1) × FailsAtPoint slot.now rows.now point.now) }
{
    if check == 1 && point.len() == 1 {
        fails_at(slot, rows, &point[0])
    } else {
        false
    }
}

/// The sides of rows that a line `row` with this slot and number divides, where it is justified: the
/// number is their middle.
fn sides(rows: &[Row], slot: u32, number: u32) -> Option<(&[Row], &[Row])>
    requires { AreRising rows.now }
    ensures { MatchOption result
        (¬ ((slot ≡ 1) × IsMiddle rows.now number))
        (λ both. (slot ≡ 1) × AreHalves rows.now both.0.now number both.1.now) }
{
    if slot != 1 || rows.len() < 2 {
        return None;
    }
    let (low, middle, high) = halves(rows);
    if number == middle {
        Some((low, high))
    } else {
        None
    }
}

/// One line, where it is justified, and else the first bad one.
fn one_line(justified: bool) -> Result<u32, u32>
    ensures { MatchResult result
        (λ count. (count ≡ 1) × IsTrue justified)
        (λ at. (at ≡ 0) × ¬ IsTrue justified) }
{
    if justified { Ok(1) } else { Err(0) }
}

/// How many lines a tree has, where each is justified over the rows left, and else its first line
/// that is not, from 0.
pub(crate) fn check_tree(slot: &Slot, rows: &[Row], tree: &PickTree) -> Result<u32, u32>
    requires rising { AreRising rows.now }
    requires few { tree_nodes tree.now < 2 ^ 32 }
    ensures { MatchResult result
        (IsCheckedTree slot.now rows.now tree.now)
        (IsBadAt slot.now rows.now tree.now) }
{
    match tree {
        PickTree::Empty(number) => one_line(empty_is_right(rows, *number)),
        PickTree::Fails { check, point } => {
            one_line(fails_is_right(slot, rows, *check, point.as_slice()))
        }
        PickTree::ByRow {
            slot: number,
            row,
            low,
            high,
        } => match sides(rows, *number, *row) {
            None => Err(0),
            Some((low_rows, high_rows)) => match check_tree(slot, low_rows, low.get()) {
                Err(at) => Err(1 + at),
                Ok(before) => match check_tree(slot, high_rows, high.get()) {
                    Err(at) => Err(1 + before + at),
                    Ok(more) => Ok(1 + before + more),
                },
            },
        },
    }
}
