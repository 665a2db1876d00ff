//! What the kind of a token is good for.
ghost use Rattle.std.specs.Prelude.{◌≡◌, if◌then◌else◌, Some, None};
ghost use Rattle.ato_parser.specs.Kinds as spec;
ghost use Rattle.ato_parser.specs.Reading as reading;

use ato_ast::{BlockKind, Choice, Comparison, Number, Scale, Sign, Unit};
use ato_base::{Keyword, Mark, Name, Span, TokenKind};

/// Whether it is this mark.
#[tactic(auto, unfolding(crate::specs::Kinds::same_mark))]
pub(crate) fn is_mark(mark: Mark, kind: TokenKind) -> bool
    ensures { result ≡ spec.is_mark mark kind }
{
    match kind {
        TokenKind::Mark(found) => found == mark,
        _ => false,
    }
}

/// Whether it is this keyword.
#[tactic(auto, unfolding(crate::specs::Kinds::same_keyword))]
pub(crate) fn is_keyword(keyword: Keyword, kind: TokenKind) -> bool
    ensures { result ≡ spec.is_keyword keyword kind }
{
    match kind {
        TokenKind::Keyword(found) => found == keyword,
        _ => false,
    }
}

/// Whether it is the end of a line.
pub(crate) fn is_newline(kind: TokenKind) -> bool
    ensures { result ≡ spec.is_newline kind }
{
    matches!(kind, TokenKind::Newline)
}

/// Whether the lines behind it are deeper.
pub(crate) fn is_indent(kind: TokenKind) -> bool
    ensures { result ≡ spec.is_indent kind }
{
    matches!(kind, TokenKind::Indent)
}

/// Whether the lines behind it are less deep.
pub(crate) fn is_dedent(kind: TokenKind) -> bool
    ensures { result ≡ spec.is_dedent kind }
{
    matches!(kind, TokenKind::Dedent)
}

/// The name that it is.
pub(crate) fn name_of(kind: TokenKind) -> Option<Name>
    ensures { result ≡ spec.name_of kind }
{
    match kind {
        TokenKind::Name(name) => Some(name),
        _ => None,
    }
}

/// Whether it is a name.
pub(crate) fn is_name(kind: TokenKind) -> bool
    ensures { result ≡ reading.is_name kind }
{
    matches!(kind, TokenKind::Name(_))
}

/// The number that it is.
pub(crate) fn number_of(kind: TokenKind) -> Option<Number>
    ensures { result ≡ spec.number_of kind }
{
    match kind {
        TokenKind::Number { whole, small, at } => Some(Number { whole, small, at }),
        _ => None,
    }
}

/// The whole number that it is.
pub(crate) fn integer_of(kind: TokenKind) -> Option<Number>
    ensures { result ≡ spec.integer_of kind }
{
    match kind {
        TokenKind::Number {
            whole: true,
            small,
            at,
        } => Some(Number {
            whole: true,
            small,
            at,
        }),
        _ => None,
    }
}

fn from_one_to_sixteen(small: Option<u16>) -> bool
    ensures { result ≡ spec.from_one_to_sixteen small }
{
    match small {
        None => false,
        Some(number) => 1 <= number && number <= 16,
    }
}

/// The exponent that it is, a whole number from 1 to 16.
pub(crate) fn exponent_of(kind: TokenKind) -> Option<Number>
    ensures { result ≡ spec.exponent_of kind }
{
    let TokenKind::Number {
        whole: true,
        small,
        at,
    } = kind
    else {
        return None;
    };
    if from_one_to_sixteen(small) {
        Some(Number {
            whole: true,
            small,
            at,
        })
    } else {
        None
    }
}

/// Where the contents of the string stand that it is.
pub(crate) fn text_of(kind: TokenKind) -> Option<Span>
    ensures { result ≡ spec.text_of kind }
{
    match kind {
        TokenKind::Str(contents) => Some(contents),
        _ => None,
    }
}

/// How an operand of a sum counts behind it.
pub(crate) fn sign_of(kind: TokenKind) -> Option<Sign>
    ensures { result ≡ spec.sign_of kind }
{
    match kind {
        TokenKind::Mark(Mark::Plus) => Some(Sign::Plus),
        TokenKind::Mark(Mark::Minus) => Some(Sign::Minus),
        _ => None,
    }
}

/// How an operand of a product counts behind it.
pub(crate) fn scale_of(kind: TokenKind) -> Option<Scale>
    ensures { result ≡ spec.scale_of kind }
{
    match kind {
        TokenKind::Mark(Mark::Star) => Some(Scale::Times),
        TokenKind::Mark(Mark::Slash) => Some(Scale::Over),
        _ => None,
    }
}

/// The unit that it is.
pub(crate) fn unit_of(kind: TokenKind) -> Option<Unit>
    ensures { result ≡ spec.unit_of kind }
{
    match kind {
        TokenKind::Name(name) => Some(Unit::Name(name)),
        TokenKind::Mark(Mark::Percent) => Some(Unit::Percent),
        _ => None,
    }
}

/// How two sides compare between which it stands.
pub(crate) fn comparison_of(kind: TokenKind) -> Option<Comparison>
    ensures { result ≡ spec.comparison_of kind }
{
    match kind {
        TokenKind::Mark(Mark::Less) => Some(Comparison::Less),
        TokenKind::Mark(Mark::LessEqual) => Some(Comparison::LessEqual),
        TokenKind::Mark(Mark::Greater) => Some(Comparison::Greater),
        TokenKind::Mark(Mark::GreaterEqual) => Some(Comparison::GreaterEqual),
        TokenKind::Keyword(Keyword::Is) => Some(Comparison::Is),
        _ => None,
    }
}

/// The truth value that it is.
pub(crate) fn truth_of(kind: TokenKind) -> Option<bool>
    ensures { result ≡ spec.truth_of kind }
{
    match kind {
        TokenKind::Keyword(Keyword::True) => Some(true),
        TokenKind::Keyword(Keyword::False) => Some(false),
        _ => None,
    }
}

/// The kind of block that it begins.
pub(crate) fn block_of(kind: TokenKind) -> Option<BlockKind>
    ensures { result ≡ spec.block_of kind }
{
    match kind {
        TokenKind::Keyword(Keyword::Module) => Some(BlockKind::Module),
        TokenKind::Keyword(Keyword::Component) => Some(BlockKind::Component),
        TokenKind::Keyword(Keyword::Interface) => Some(BlockKind::Interface),
        _ => None,
    }
}

/// Whether a name is that of the absolute value.
pub(crate) fn is_abs(name: Name) -> bool
    ensures { spec.abs_of name ≡ (if result then Some tt else None) }
{
    name.0 == 0
}

/// Which of several operands the function of this name chooses.
pub(crate) fn choice_of(name: Name) -> Option<Choice>
    ensures { result ≡ spec.choice_of name }
{
    match name.0 {
        1 => Some(Choice::Max),
        2 => Some(Choice::Min),
        _ => None,
    }
}

/// Whether a literal begins with it.
#[tactic(auto, unfolding(crate::specs::Kinds::same_mark))]
pub(crate) fn starts_literal(kind: TokenKind) -> bool
    ensures { result ≡ reading.starts_literal kind }
{
    matches!(
        kind,
        TokenKind::Number { .. } | TokenKind::Mark(Mark::Minus)
    )
}
