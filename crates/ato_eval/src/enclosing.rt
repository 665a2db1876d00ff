//! The judgement of a relation over ranges.
ghost use Rattle.std.specs.Prelude.{◌≡◌, ◌≢◌, ◌∷◌, [], ℕ, length, MatchResult};
ghost use Rattle.ato_rational.specs.Rational.{ℚ};
ghost use Rattle.ato_expr.specs.declared.ops.Relation.TheVariants as relations;
ghost use Rattle.ato_expr.specs.Labels.{StopsFor};
ghost use Rattle.ato_expr.specs.Scratches.{HasRoom};
ghost use Rattle.ato_expr.specs.Tables.{AreNodes, HasEntries};
ghost use Rattle.ato_expr.specs.Values.{roots_of};
ghost use Rattle.ato_eval.specs.declared.judgement.Judgement.{Judgement};
ghost use Rattle.ato_eval.specs.declared.judgement.Judgement.TheVariants.{Unknown};
ghost use Rattle.ato_eval.specs.Corners.{narrowed};
ghost use Rattle.ato_eval.specs.Intervals.{GivesInterval, RefusesInterval};
ghost use Rattle.ato_eval.specs.Judgements.{ArePoints, HasInterval, IsInside, IsRight, Judges, judgement_of};

use crate::Judgement;
use crate::judging::judge;
use ato_expr::{ExprTable, Relation, Scratch};
use ato_frac::Frac;
use ato_interval::Interval;

/// The judgement of a relation over ranges of its variables.
///
/// Each node below the relation's sides gets an interval from those of its children, in the table's order, each once.
/// The first one without an interval decides: an operation on ends that is refused gives `Wide`, a divisor that is
/// exactly 0 gives `False`, and another divisor that holds 0 gives `Unknown`. Else the intervals of the sides decide, and
/// what they do not show is `Unknown`, which never comes over ranges of one point each. A target may be unsorted, and its ranges may overlap and touch.
///
/// The sides have to be nodes of the table, each variable below them needs a range, and the scratch has to be
/// reserved for the table. Nodes that are not below them have no part in the answer. It takes no memory.
pub fn enclose(
    table: &ExprTable,
    relation: &Relation,
    ranges: &[Interval<Frac>],
    scratch: &mut Scratch,
) -> Judgement
    requires roots { AreNodes table.now (roots_of relation.now) }
    requires entries { HasEntries table.now (roots_of relation.now) ranges.now }
    requires room { HasRoom scratch.old (length table.now) }
    ensures judges { Judges table.now ranges.now relation.now result }
    ensures only { (point : ℕ → ℚ) → IsInside ranges.now point → (judgement : Judgement)
        → Judges table.now ranges.now relation.now judgement → judgement ≡ result }
    ensures right { (point : ℕ → ℚ) → IsInside ranges.now point
        → IsRight table.now point relation.now result }
    ensures decided { ArePoints ranges.now → result ≢ Unknown }
    ensures room { HasRoom scratch.new (length table.now) }
{
    judge(table, relation, ranges, &[], scratch)
}
