//! Laws on the texts of units and on quantities, as contracts.
ghost use Rattle.std.specs.Prelude.{◌≡◌, ◌↔◌, ℕ, List, Some, Result};
ghost use Rattle.ato_units.specs.declared.quantities.Form.{Form};
ghost use Rattle.ato_units.specs.declared.quantities.Quantity.{Quantity};
ghost use Rattle.ato_units.specs.Literals.{Literal, IsLiteral};
ghost use Rattle.ato_units.specs.Quantities.{Written, PartFault, Gives};
ghost use Rattle.ato_units.specs.declared.quantities.QuantityFault.{QuantityFault};
ghost use Rattle.ato_units.specs.Spellings.{LiteralGives};
ghost use Rattle.ato_units.specs.Units.{Meaning, all_units, unit_of, IsListed};

use crate::named_units::units;

/// A text has one reading at most: what it is read as is all that it means anywhere among the names
/// and the prefixes before names.
pub fn one_reading()
    ensures { (text : List ℕ) (m : Meaning) → (IsListed text m all_units ↔ (unit_of text ≡ Some m)) }
{
    // that the texts differ is a fact of the table
    let _table = units();
}

/// Two parts give one answer at most: one dimension and one pair of ends, or one fault.
pub fn one_quantity()
    ensures { (form : Form) (p q : Written) (a b : Result Quantity PartFault) → Gives form p q a → Gives form p q b → a ≡ b }
{}

/// A text is one literal at most: its tokens and their places in the grammar are settled by it.
#[tactic(auto, using(crate::proofs::LiteralLaws::one_literal))]
pub fn one_literal()
    ensures { (text : List ℕ) (a b : Literal) → IsLiteral text a → IsLiteral text b → a ≡ b }
{}

/// A literal gives one answer at most: one quantity, or one fault.
pub fn one_answer()
    ensures { (literal : Literal) (a b : Result Quantity QuantityFault) → LiteralGives literal a → LiteralGives literal b → a ≡ b }
{}
