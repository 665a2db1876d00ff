ghost use Rattle.std.specs.Prelude.{◌≡◌, ◌<◌, [], ◌∷◌, MatchOption, length};
ghost use Rattle.unicode_ident.specs.Ident.{is_xid_continue};
ghost use Rattle.std.specs.List.{list_all, list_any};
ghost use Rattle.std.specs.Str.{chars, bytes_eq};
ghost use Rattle.ato_base.specs.Keywords.{is_keyword, keyword_text};
ghost use Rattle.ato_base.specs.Names.{starts_name, are_name_chars, is_name};

use crate::Keyword;
use unicode_ident::{is_xid_continue, is_xid_start};

/// The keywords.
const KEYWORDS: &[Keyword] = &[
    Keyword::Module,
    Keyword::Component,
    Keyword::Interface,
    Keyword::From,
    Keyword::Import,
    Keyword::New,
    Keyword::Signal,
    Keyword::Pin,
    Keyword::Assert,
    Keyword::Within,
    Keyword::Is,
    Keyword::To,
    Keyword::Pass,
    Keyword::For,
    Keyword::In,
    Keyword::True,
    Keyword::False,
];

/// Whether a text is one of some keywords.
fn is_among(text: &[u8], keywords: &[Keyword]) -> bool
    ensures { result ≡ list_any (λ keyword. bytes_eq text.now (keyword_text keyword)) keywords.now }
{
    keywords
        .iter()
        .any(|keyword| text == keyword.spelling().as_bytes())
}

/// Whether a text is a keyword.
pub fn is_keyword(text: &[u8]) -> bool
    ensures { result ≡ is_keyword text.now }
{
    is_among(text, KEYWORDS)
}

fn starts_name(first: char) -> bool
    ensures { result ≡ starts_name first }
{
    is_xid_start(first) | (first == '_')
}

/// The first character of a text, and what comes after it, which is shorter.
#[tactic(auto, using(std::proofs::lemmas::Str::chars_past_char))]
pub fn first_char(text: &str) -> Option<(char, &str)>
    ensures cut { MatchOption result (chars text.now ≡ [])
        (λ cut. chars text.now ≡ cut.0 ∷ chars cut.1.now) }
    ensures shorter { MatchOption result (length text.now ≡ 0) (λ cut. length cut.1.now < length text.now) }
{
    let mut rest = text.chars();
    match rest.next() {
        None => None,
        Some(first) => Some((first, rest.as_str())),
    }
}

fn continues_name(text: &str) -> bool
    ensures { result ≡ list_all is_xid_continue (chars text.now) }
{
    text.chars().all(|next| is_xid_continue(next))
}

fn are_name_chars(text: &str) -> bool
    ensures { result ≡ are_name_chars (chars text.now) }
{
    match first_char(text) {
        None => false,
        Some((first, rest)) => starts_name(first) && continues_name(rest),
    }
}

/// Whether a text is a name of the language: `_` or a character that Unicode's XID rule lets start
/// an identifier, then characters that it lets continue one, and no keyword.
pub fn is_name(text: &str) -> bool
    ensures { result ≡ is_name text.now }
{
    are_name_chars(text) && !is_keyword(text.as_bytes())
}
