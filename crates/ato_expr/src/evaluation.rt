//! What a node comes to at a point.
ghost use Rattle.std.specs.Prelude.{◌≡◌, ◌↔◌, ◌<◌, ◌≤◌, ℕ, [], ◌∷◌, List, length, slice_get, Contains, Some, MatchResult};
ghost use Rattle.ato_rational.specs.Rational.{ℚ};
ghost use Rattle.ato_expr.specs.declared.ops.Op.TheVariants.{Var};
ghost use Rattle.ato_expr.specs.declared.point.Point.{Point};
ghost use Rattle.ato_expr.specs.AtPoint.{ComesTo, refused_point, GivesFraction, RefusesFraction, IsRight, IsWorld};
ghost use Rattle.ato_expr.specs.Held.{IsHeld};
ghost use Rattle.ato_expr.specs.Labels.{HasLabel, IsRefused, StopsFor};
ghost use Rattle.ato_expr.specs.Scratches.{HasRoom, IsMarked};
ghost use Rattle.ato_expr.specs.Tables.{Entry, HasEntries, IsBelow};

use crate::operations::operation;
use crate::{ExprTable, Point, Scratch, Stretch};
use ato_frac::{Frac, NumFault};

/// What one node comes to, where each of its children's fractions is held.
fn result_at(
    table: &ExprTable,
    node: u32,
    world: &[Frac],
    scratch: &Scratch,
) -> Result<Frac, NumFault>
    requires there { node < length table.now }
    requires entries { (v : ℕ) (e : Entry) → slice_get table.now node ≡ Some e → e.op ≡ Var v → v < length world.now }
    requires held { (c : ℕ) (e : Entry) → slice_get table.now node ≡ Some e → Contains e.children c → IsHeld table.now world.now scratch.now.ends c }
    ensures { MatchResult result
        (HasLabel (GivesFraction world.now) table.now node)
        (IsRefused (GivesFraction world.now) RefusesFraction table.now node) }
{
    let (op, children) = table.entry(node);
    operation(op, children, world, scratch.ends())
}

/// What a node comes to where the first one without a value is refused.
fn refused(fault: NumFault) -> Point
    ensures { result ≡ refused_point fault }
{
    match fault {
        NumFault::ByZero => Point::Undefined,
        NumFault::Wide => Point::Wide,
    }
}

/// Works out the marked nodes of a stretch, which are those below some roots, from the first to the last; their fractions are held
/// then. The first of them that is refused ends it.
fn evaluate(
    table: &ExprTable,
    roots: &[u32],
    world: &[Frac],
    stretch: Stretch,
    scratch: &mut Scratch,
) -> Result<(), NumFault>
    requires end { stretch.end ≤ length table.now }
    requires entries { HasEntries table.now roots.now world.now }
    requires room { HasRoom scratch.old (length table.now) }
    requires marks { (k : ℕ) → IsMarked stretch scratch.old.marks k ↔ IsBelow table.now roots.now k }
    ensures done { MatchResult result
        (λ _. (k : ℕ) → IsBelow table.now roots.now k → IsHeld table.now world.now scratch.new.ends k)
        (StopsFor (GivesFraction world.now) RefusesFraction table.now roots.now) }
    ensures marks { length scratch.new.marks ≡ length scratch.old.marks }
    ensures ends { length scratch.new.ends ≡ length scratch.old.ends }
{
    // the count tells that children stand before their parents
    let _count = table.count();
    for node in stretch.first..stretch.end {
        if scratch.is_marked(node) {
            let value = result_at(table, node, world, scratch)?;
            scratch.put(node, value, value);
        }
    }
    Ok(())
}

/// What a node comes to at a point, at which each variable has the value of its entry in `world`: its exact value, or why the first node
/// below it, in the table's order, has none.
///
/// The node has to be one of the table's, each variable below it needs an entry, and the scratch has to be reserved for the table. Nodes that
/// are not below it have no part in the answer. It takes no memory, works out each node below it once, and leaves the scratch its room.
pub fn value_at(table: &ExprTable, root: u32, world: &[Frac], scratch: &mut Scratch) -> Point
    requires root { root < length table.now }
    requires entries { HasEntries table.now (root ∷ []) world.now }
    requires room { HasRoom scratch.old (length table.now) }
    ensures comes_to { ComesTo table.now world.now root result }
    ensures only { (point : Point) → ComesTo table.now world.now root point → point ≡ result }
    ensures right { (point : ℕ → ℚ) → IsWorld world.now point → IsRight table.now point root result }
    ensures marks { length scratch.new.marks ≡ length scratch.old.marks }
    ensures ends { length scratch.new.ends ≡ length scratch.old.ends }
{
    let roots = [root];
    let stretch = scratch.mark(table, &roots);
    match evaluate(table, &roots, world, stretch, scratch) {
        Ok(()) => Point::Value(scratch.ends_at(root).0),
        Err(fault) => refused(fault),
    }
}
