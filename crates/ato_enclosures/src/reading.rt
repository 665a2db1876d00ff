//! The words of a line.

use ato_expr::Op;
use ato_frac::Frac;
use std::str::SplitWhitespace;

/// The number of a word.
pub fn number(word: Option<&str>) -> Option<u32> {
    word?.parse::<u32>().ok()
}

/// The fraction of a word that is a decimal number.
pub fn fraction(word: &str) -> Option<Frac> {
    Frac::from_decimal(word.as_bytes()).ok()
}

/// The fraction of a word that is a decimal number, or one behind a minus sign.
fn signed(word: &str) -> Option<Frac> {
    match word.strip_prefix("-") {
        Some(opposite) => Some(fraction(opposite)?.opposite()),
        None => fraction(word),
    }
}

/// The two ends of a range: the next word, and the word after it.
pub fn pair(low: &str, high: Option<&str>) -> Option<(Frac, Frac)> {
    let low = signed(low)?;
    let high = signed(high?)?;
    Some((low, high))
}

/// The operation that a name and, for some, the next word mean.
pub fn operation(name: &str, words: &mut SplitWhitespace) -> Option<Op> {
    match name {
        "var" => Some(Op::Var(number(words.next())?)),
        "const" => Some(Op::Const(fraction(words.next()?)?)),
        "sum" => Some(Op::Sum),
        "neg" => Some(Op::Neg),
        "product" => Some(Op::Product),
        "quotient" => Some(Op::Quotient),
        "power" => Some(Op::Power(number(words.next())?)),
        "min" => Some(Op::Min),
        "max" => Some(Op::Max),
        "abs" => Some(Op::Abs),
        _ => None,
    }
}
