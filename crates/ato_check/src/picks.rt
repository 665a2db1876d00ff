//! The lines of a pick with its checks.
ghost use Rattle.std.specs.Prelude.{◌≡◌, ◌≤◌, length, MatchOption};
ghost use Rattle.std.specs.List.{All, Contains};
ghost use Rattle.ato_cert.specs.Valid.{ShowsPick};
ghost use Rattle.ato_check.specs.FirstBad.{IsPicked, IsBadPick};
ghost use Rattle.ato_check.specs.Parts.{IsNumbered};

use ato_cert::{BoxTree, Row, Slot};

/// The first row with a number.
fn row_numbered(rows: &[Row], number: u32) -> Option<Row>
    ensures { MatchOption result (All (λ row. ¬ (row.number ≡ number)) rows.now) (IsNumbered rows.now number) }
{
    for row in rows {
        if row.number == number {
            return Some(*row);
        }
    }
    None
}

/// The candidate that a pick takes.
fn picked(slot: &Slot, pick: &[u32]) -> Option<Row>
    ensures { MatchOption result
        ((row : Row) → ¬ IsPicked slot.now pick.now row)
        (IsPicked slot.now pick.now) }
{
    if pick.len() == 1 {
        row_numbered(slot.rows.as_slice(), pick[0])
    } else {
        None
    }
}

/// The first bad line of a pick with its check, if it is listed, or none where they are right.
pub(crate) fn bad_line_of_pick(slot: &Slot, pick: &[u32], boxes: &[BoxTree]) -> Option<u32>
    requires { length boxes.now ≤ 1 }
    ensures { MatchOption result
        (ShowsPick slot.now pick.now boxes.now)
        (IsBadPick slot.now pick.now boxes.now) }
{
    match picked(slot, pick) {
        None => Some(4),
        Some(row) => {
            if boxes.len() == 0 {
                Some(2)
            } else if !slot.has_in_target(&row) {
                Some(6)
            } else {
                None
            }
        }
    }
}
