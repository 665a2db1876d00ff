//! Each call once, with ample memory, on a table whose values are worked by hand.
use crate::{ExprTable, Op, Point, Scratch, value_at};
use ato_base::NoMemory;
use ato_frac::Frac;
use std::alloc::Global;

/// Puts an operation in, where the table takes it.
fn put(table: &mut ExprTable, op: Op, children: &[u32]) -> Result<u32, NoMemory> {
    if !table.takes(&op, children) {
        return Err(NoMemory);
    }
    table.push(op, children)
}

/// What a node comes to at a point with enough entries.
fn at(
    alloc: Global,
    table: &ExprTable,
    root: u32,
    world: &[Frac],
) -> Result<Option<Point>, NoMemory> {
    if table.count() <= root || world.len() < table.variables() {
        return Ok(None);
    }
    let mut scratch = Scratch::new(alloc);
    scratch.reserve(table)?;
    Ok(Some(value_at(table, root, world, &mut scratch)))
}

/// x, y, x + y, its opposite, x over x + y, the square of this, y over (x + y) + -(x + y).
fn table(alloc: Global) -> Result<ExprTable, NoMemory> {
    let mut table = ExprTable::new(alloc);
    put(&mut table, Op::Var(0), &[])?;
    put(&mut table, Op::Var(1), &[])?;
    put(&mut table, Op::Sum, &[0, 1])?;
    put(&mut table, Op::Neg, &[2])?;
    put(&mut table, Op::Quotient, &[0, 2])?;
    put(&mut table, Op::Power(2), &[4])?;
    put(&mut table, Op::Sum, &[2, 3])?;
    put(&mut table, Op::Quotient, &[1, 6])?;
    Ok(table)
}

/// The fraction of whole numbers.
fn fraction(numer: i128, denom: i128) -> Option<Frac> {
    Frac::new(numer, denom)
}

/// What a node of the table and of its copy comes to at x = 1 and y = 2, where both are the same.
fn both(alloc: Global, root: u32) -> Result<Option<Point>, NoMemory> {
    let (Some(one), Some(two)) = (fraction(1, 1), fraction(2, 1)) else {
        return Ok(None);
    };
    let table = table(alloc)?;
    let copy = table.copy()?;
    let world = [one, two];
    let (found, again) = (
        at(alloc, &table, root, &world)?,
        at(alloc, &copy, root, &world)?,
    );
    if found == again { Ok(found) } else { Ok(None) }
}

#[test]
fn values_by_hand(rt: HostRuntime) -> Result<(), NoMemory> {
    let alloc = rt.alloc();
    assert!(rt; both(alloc, 3)? == fraction(-3, 1).map(Point::Value));
    assert!(rt; both(alloc, 5)? == fraction(1, 9).map(Point::Value));
    assert!(rt; both(alloc, 7)? == Some(Point::Undefined));
    assert!(rt; both(alloc, 8)? == None);
    Ok(())
}

#[test]
fn entries_by_number(rt: HostRuntime) -> Result<(), NoMemory> {
    let table = table(rt.alloc())?;
    assert!(rt; table.count() == 8);
    assert!(rt; table.variables() == 2);
    assert!(rt; table.op(5) == Some(Op::Power(2)));
    assert!(rt; table.op(8) == None);
    assert!(rt; table.children(6) == Some(&[2, 3]));
    assert!(rt; table.children(8) == None);
    Ok(())
}
