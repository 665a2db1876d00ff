//! The parts of a number's text.
ghost use Rattle.std.specs.Prelude.{◌≡◌, ◌≤◌, None, Some, length, MatchOption};
ghost use Rattle.std.specs.List.{list_all, prefix_len};
ghost use Rattle.std.specs.Char.{is_ascii_digit};
ghost use Rattle.ato_frac.specs.Reading.{front_digits, front_fraction, are_digits, all_digits, signed_digits, exponent_digits, read_number};

/// The digits of a number before its point, those after it, and its exponent with whether this is
/// below 0.
#[derive(Clone, Copy)]
pub(crate) struct Parts<'a> {
    pub(crate) whole: &'a [u8],
    pub(crate) fraction: &'a [u8],
    pub(crate) negative: bool,
    pub(crate) exponent: &'a [u8],
}

/// Where the digits at the front end.
fn digits_end(text: &[u8]) -> usize
    ensures at { result ≡ prefix_len is_ascii_digit text.now }
    ensures within { result ≤ length text.now }
{
    text.iter().take_while(|byte| byte.is_ascii_digit()).count()
}

/// The digits at the front, if there are any, and what follows.
fn front_digits(text: &[u8]) -> Option<(&[u8], &[u8])>
    ensures { MatchOption result
        (front_digits text.now ≡ None)
        (λ r. front_digits text.now ≡ Some (r.0.now, r.1.now)) }
{
    let end = digits_end(text);
    if end == 0 {
        return None;
    }
    Some(text.split_at(end))
}

/// The digits of a fraction, and what follows.
fn front_fraction(text: &[u8]) -> Option<(&[u8], &[u8])>
    ensures { MatchOption result
        (front_fraction text.now ≡ None)
        (λ r. front_fraction text.now ≡ Some (r.0.now, r.1.now)) }
{
    match text {
        [b'.', after @ ..] => front_digits(after),
        _ => Some((&text[..0], text)),
    }
}

fn has_digits(text: &[u8]) -> bool
    ensures { result ≡ list_all is_ascii_digit text.now }
{
    text.iter().all(|byte| byte.is_ascii_digit())
}

/// Whether a text is one or more digits.
fn are_digits(text: &[u8]) -> bool
    ensures { result ≡ are_digits text.now }
{
    1 <= text.len() && has_digits(text)
}

/// A text of digits alone, with a sign.
fn all_digits(negative: bool, text: &[u8]) -> Option<(bool, &[u8])>
    ensures { MatchOption result
        (all_digits negative text.now ≡ None)
        (λ r. all_digits negative text.now ≡ Some (r.0, r.1.now)) }
{
    if are_digits(text) {
        Some((negative, text))
    } else {
        None
    }
}

/// Digits with a sign before them, or with none.
fn signed_digits(text: &[u8]) -> Option<(bool, &[u8])>
    ensures { MatchOption result
        (signed_digits text.now ≡ None)
        (λ r. signed_digits text.now ≡ Some (r.0, r.1.now)) }
{
    match text {
        [] => None,
        [b'+', digits @ ..] => all_digits(false, digits),
        [b'-', digits @ ..] => all_digits(true, digits),
        _ => all_digits(false, text),
    }
}

/// Nothing, or `e` or `E` and signed digits.
fn exponent_digits(text: &[u8]) -> Option<(bool, &[u8])>
    ensures { MatchOption result
        (exponent_digits text.now ≡ None)
        (λ r. exponent_digits text.now ≡ Some (r.0, r.1.now)) }
{
    match text {
        [] => Some((false, text)),
        [b'e' | b'E', signed @ ..] => signed_digits(signed),
        _ => None,
    }
}

/// The parts of a number, if the text is one.
pub(crate) fn read_number(text: &[u8]) -> Option<Parts>
    ensures { MatchOption result
        (read_number text.now ≡ None)
        (λ p. read_number text.now ≡ Some (record {
          whole = p.whole.now;
          fraction = p.fraction.now;
          negative = p.negative;
          exponent = p.exponent.now;
        })) }
{
    let (whole, rest) = front_digits(text)?;
    let (fraction, rest) = front_fraction(rest)?;
    let (negative, exponent) = exponent_digits(rest)?;
    Some(Parts {
        whole,
        fraction,
        negative,
        exponent,
    })
}
