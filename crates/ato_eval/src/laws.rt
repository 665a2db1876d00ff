//! Laws on judgements, as contracts of functions that do nothing.
ghost use Rattle.std.specs.Prelude.{◌≢◌, ℕ, Bool, List};
ghost use Rattle.ato_frac.specs.declared.fraction.Frac.{Frac};
ghost use Rattle.ato_interval.specs.Ends.{Ends};
ghost use Rattle.ato_expr.specs.declared.ops.Relation.{Relation};
ghost use Rattle.ato_expr.specs.Tables.{Entry};
ghost use Rattle.ato_eval.specs.declared.judgement.Judgement.{Judgement};
ghost use Rattle.ato_eval.specs.declared.judgement.Judgement.TheVariants.{True, Unknown, Wide};
ghost use Rattle.ato_eval.specs.Judgements.{ArePoints, Judges};
ghost use Rattle.ato_eval.specs.Plain.{AreRanges, FailsAtCorner, IsPlain};

/// Over ranges of one point each a judgement is `True`, `False` or `Wide`, and never `Unknown`.
pub fn points_are_decided()
    ensures { (table : List Entry) (ranges : List (Ends Frac)) (relation : Relation)
        → ArePoints ranges → ¬ Judges table ranges relation Unknown }
{}

/// A plain relation that is judged neither `True` nor `Wide` fails at a corner of the ranges: at a point that
/// takes one end of each range.
///
/// A relation is plain over ranges where each of its variables stands once in its sides, its target is one interval once
/// touching ranges are joined, no divisor holds 0, and what is raised to a power, or taken without its sign, does not lie on
/// both sides of 0.
pub fn corners_decide()
    ensures { (table : List Entry) (ranges : List (Ends Frac)) (relation : Relation) (judgement : Judgement)
        → AreRanges ranges → IsPlain table ranges relation → Judges table ranges relation judgement
        → judgement ≢ True → judgement ≢ Wide
        → (high : ℕ → Bool) × FailsAtCorner table ranges relation high }
{}
