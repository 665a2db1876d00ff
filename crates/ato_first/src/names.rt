ghost use Rattle.std.specs.Prelude.{◌≡◌};
ghost use Rattle.std.specs.List.{list_all, list_any};
ghost use Rattle.std.specs.Str.{bytes_eq};
ghost use Rattle.ato_first.specs.FirstForm.{is_digit, is_letter, is_name_byte, starts_with_letter, is_ascii_name, is_short_number, is_kind_byte, is_kind_text, reserved_names};

use ato_base::is_keyword;

fn is_digit(byte: u8) -> bool
    ensures { result ≡ is_digit byte }
{
    (b'0'..=b'9').contains(&byte)
}

fn is_letter(byte: u8) -> bool
    ensures { result ≡ is_letter byte }
{
    (byte >= b'A' && byte <= b'Z') || (byte >= b'a' && byte <= b'z') || byte == b'_'
}

fn is_name_byte(byte: u8) -> bool
    ensures { result ≡ is_name_byte byte }
{
    is_letter(byte) || is_digit(byte)
}

fn starts_with_letter(text: &[u8]) -> bool
    ensures { result ≡ starts_with_letter text.now }
{
    match text {
        [] => false,
        [first, ..] => is_letter(*first),
    }
}

fn has_name_bytes(text: &[u8]) -> bool
    ensures { result ≡ list_all is_name_byte text.now }
{
    text.iter().all(|byte| is_name_byte(*byte))
}

/// Whether a text is a name of ASCII letters, digits and `_`.
pub(crate) fn is_ascii_name(text: &[u8]) -> bool
    ensures { result ≡ is_ascii_name text.now }
{
    starts_with_letter(text) && has_name_bytes(text) && !is_keyword(text)
}

fn has_digits(text: &[u8]) -> bool
    ensures { result ≡ list_all is_digit text.now }
{
    text.iter().all(|byte| is_digit(*byte))
}

/// Whether a text is a number of 1 to 18 digits.
pub(crate) fn is_short_number(text: &[u8]) -> bool
    ensures { result ≡ is_short_number text.now }
{
    1 <= text.len() && text.len() <= 18 && has_digits(text)
}

fn has_kind_bytes(text: &[u8]) -> bool
    ensures { result ≡ list_all is_kind_byte text.now }
{
    text.iter().all(|byte| is_name_byte(*byte) && *byte != b'_')
}

/// Whether a text is one or more ASCII letters and digits.
pub(crate) fn is_kind_text(text: &[u8]) -> bool
    ensures { result ≡ is_kind_text text.now }
{
    1 <= text.len() && has_kind_bytes(text)
}

/// Whether a text is a name that no attribute may have.
pub(crate) fn is_reserved(text: &[u8]) -> bool
    ensures { result ≡ list_any (bytes_eq text.now) reserved_names }
{
    text == b"kind".as_slice()
        || text == b"part".as_slice()
        || text == b"package".as_slice()
        || text == b"footprint".as_slice()
        || text == b"price".as_slice()
        || text == b"designator_prefix".as_slice()
}
