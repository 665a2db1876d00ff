//! The laws of rational values, as a contract.
ghost use Rattle.ato_rational.specs.OrderedField.{IsOrderedField};

/// The rational values are an ordered field, in which the lesser, the greater, the absolute value and
/// the powers are what their names say. It does nothing: the law is its contract.
pub fn ordered_field()
    ensures { IsOrderedField }
{}
