//! Expressions.
ghost use Rattle.std.specs.Prelude.{◌≡◌, Ok, Err, Some, IfOk, MatchResult};
ghost use Rattle.ato_base.specs.declared.keywords.Mark.TheVariants as marks;
ghost use Rattle.ato_parser.specs.Depths as depths;
ghost use Rattle.ato_parser.specs.Expressions as grammar;
ghost use Rattle.ato_parser.specs.Input.{Reads, many, placed};
ghost use Rattle.ato_parser.specs.Kinds.{is_mark};
ghost use Rattle.ato_parser.specs.Kinds as kinds;
ghost use Rattle.ato_parser.specs.Placing.{placed_from};
ghost use Rattle.ato_parser.specs.Reading as spec;

use crate::cursor::Tokens;
use crate::kinds::{choice_of, is_abs, scale_of, sign_of, starts_literal};
use crate::literals::literal;
use crate::numbers::exponent;
use crate::paths::{only_name, path};
use crate::stop::Stop;
use ato_ast::{Choice, Expr, Named, Scale, Sign};
use ato_base::{Mark, Span};
use sqlite_items::{Boxed, Items};
use std::alloc::{AllocError, Global};

/// How many parentheses may stand open inside each other.
pub(crate) const DEEPEST: usize = 64;

/// Goes behind an open parenthesis, where one more may stand open.
fn open(tokens: &mut Tokens<'_>, depth: usize) -> Result<Span, Stop>
    ensures { MatchResult result (λ at. depths.opening depth tokens.old ≡ Ok ((tt, at), tokens.new)) (λ e. depths.opening depth tokens.old ≡ Err e) }
{
    if depth > 0 {
        return tokens.expect(Mark::LeftParenthesis);
    }
    if tokens.sees(Mark::LeftParenthesis) {
        return Err(Stop::TooDeep(tokens.left()));
    }
    Err(tokens.refuse())
}

/// A first operand alone, or a product.
fn product_of(
    alloc: Global,
    first: Expr,
    more: Items<(Scale, Expr)>,
    at: Span,
) -> Result<Expr, AllocError>
    ensures { IfOk result (λ x. x ≡ grammar.product_of first more at) }
{
    if more.is_empty() {
        return Ok(first);
    }
    Ok(Expr::Product(Boxed::new(alloc, first)?, more, at))
}

/// A first operand alone, or a sum.
fn sum_of(
    alloc: Global,
    first: Expr,
    more: Items<(Sign, Expr)>,
    at: Span,
) -> Result<Expr, AllocError>
    ensures { IfOk result (λ x. x ≡ grammar.sum_of first more at) }
{
    if more.is_empty() {
        return Ok(first);
    }
    Ok(Expr::Sum(Boxed::new(alloc, first)?, more, at))
}

/// What stands behind an open parenthesis.
#[cycle(expr)]
fn inside(alloc: Global, tokens: &mut Tokens<'_>, depth: usize) -> Result<Expr, Stop>
    ensures { Reads (depths.inside depth tokens.old) result tokens.new }
{
    if depth == 0 {
        return Err(tokens.refuse());
    }
    sum(alloc, tokens, depth - 1)
}

/// An expression in parentheses.
#[cycle(expr)]
#[tactic(auto, unfolding(crate::specs::Reading::group))]
fn group(alloc: Global, tokens: &mut Tokens<'_>, depth: usize) -> Result<Expr, Stop>
    ensures { Reads (placed (spec.group (depths.opening depth) (depths.inside depth)) tokens.old) result tokens.new }
{
    let start = tokens.here();
    open(tokens, depth)?;
    let inner = inside(alloc, tokens, depth)?;
    tokens.expect(Mark::RightParenthesis)?;
    Ok(Expr::Group(Boxed::new(alloc, inner)?, tokens.since(start)))
}

/// What stands behind `abs`, which begins at `start`.
#[cycle(expr)]
#[tactic(auto, unfolding(crate::specs::Reading::absolute))]
fn absolute(alloc: Global, tokens: &mut Tokens<'_>, depth: usize, start: Span) -> Result<Expr, Stop>
    ensures { Reads (placed_from start (spec.absolute (depths.opening depth) (depths.inside depth)) tokens.old) result tokens.new }
{
    open(tokens, depth)?;
    let inner = inside(alloc, tokens, depth)?;
    tokens.expect(Mark::RightParenthesis)?;
    Ok(Expr::Abs(Boxed::new(alloc, inner)?, tokens.since(start)))
}

/// The operands of `min` or `max` behind the first.
#[cycle(expr)]
fn operands(alloc: Global, tokens: &mut Tokens<'_>, depth: usize) -> Result<Items<Expr>, Stop>
    ensures { Reads (many (is_mark marks.Comma) (depths.operand depth) tokens.old) result tokens.new }
{
    let mut more = Items::new(alloc);
    for _turn in 0..tokens.left() {
        if !tokens.eat(Mark::Comma) {
            return Ok(more);
        }
        let operand = inside(alloc, tokens, depth)?;
        more.push(operand)?;
    }
    Ok(more)
}

/// What stands behind `min` or `max`, which begins at `start`.
#[cycle(expr)]
#[tactic(auto, unfolding(crate::specs::Reading::chosen))]
fn chosen(
    alloc: Global,
    tokens: &mut Tokens<'_>,
    depth: usize,
    start: Span,
    which: Choice,
) -> Result<Expr, Stop>
    ensures { Reads (placed_from start (spec.chosen (depths.opening depth) (depths.inside depth) which) tokens.old) result tokens.new }
{
    open(tokens, depth)?;
    let first = inside(alloc, tokens, depth)?;
    let more = operands(alloc, tokens, depth)?;
    tokens.expect(Mark::RightParenthesis)?;
    let first = Boxed::new(alloc, first)?;
    Ok(Expr::Choice(which, first, more, tokens.since(start)))
}

/// What stands behind the name of a function, which begins at `start`.
#[cycle(expr)]
fn called(
    alloc: Global,
    tokens: &mut Tokens<'_>,
    depth: usize,
    start: Span,
    name: Named,
) -> Result<Expr, Stop>
    ensures { Reads (placed_from start (spec.called_by (depths.opening depth) (depths.inside depth) (Some name)) tokens.old) result tokens.new }
{
    if is_abs(name.name) {
        return absolute(alloc, tokens, depth, start);
    }
    match choice_of(name.name) {
        Some(which) => chosen(alloc, tokens, depth, start, which),
        None => Err(tokens.refuse()),
    }
}

/// A path, or a function with its operands.
#[cycle(expr)]
#[tactic(auto, unfolding(crate::specs::Reading::named_atom))]
fn named_atom(alloc: Global, tokens: &mut Tokens<'_>, depth: usize) -> Result<Expr, Stop>
    ensures { Reads (placed (spec.named_atom (depths.opening depth) (depths.inside depth)) tokens.old) result tokens.new }
{
    let start = tokens.here();
    let path = path(alloc, tokens)?;
    if !tokens.sees(Mark::LeftParenthesis) {
        return Ok(Expr::Path(path));
    }
    match only_name(&path) {
        Some(name) => called(alloc, tokens, depth, start, name),
        None => Err(tokens.refuse()),
    }
}

/// A literal, a group, a path, or a function with its operands.
#[cycle(expr)]
#[tactic(auto, unfolding(crate::specs::Reading::atom))]
fn atom(alloc: Global, tokens: &mut Tokens<'_>, depth: usize) -> Result<Expr, Stop>
    ensures { Reads (spec.atom (depths.opening depth) (depths.inside depth) tokens.old) result tokens.new }
{
    if starts_literal(tokens.peek()) {
        let start = tokens.here();
        let literal = literal(tokens)?;
        return Ok(Expr::Literal(literal, tokens.since(start)));
    }
    if tokens.sees(Mark::LeftParenthesis) {
        return group(alloc, tokens, depth);
    }
    named_atom(alloc, tokens, depth)
}

/// `ATOM [ "**" INTEGER ]`.
#[cycle(expr)]
#[tactic(auto, unfolding(crate::specs::Reading::power))]
fn power(alloc: Global, tokens: &mut Tokens<'_>, depth: usize) -> Result<Expr, Stop>
    ensures { Reads (spec.power (depths.opening depth) (depths.inside depth) tokens.old) result tokens.new }
{
    let start = tokens.here();
    let base = atom(alloc, tokens, depth)?;
    if !tokens.eat(Mark::Power) {
        return Ok(base);
    }
    let (exponent, _) = exponent(tokens)?;
    let base = Boxed::new(alloc, base)?;
    Ok(Expr::Power(base, exponent, tokens.since(start)))
}

/// The operands of a product behind the first.
#[cycle(expr)]
fn factors(
    alloc: Global,
    tokens: &mut Tokens<'_>,
    depth: usize,
) -> Result<Items<(Scale, Expr)>, Stop>
    ensures { Reads (many (spec.has kinds.scale_of) (depths.factor depth) tokens.old) result tokens.new }
{
    let mut more = Items::new(alloc);
    for _turn in 0..tokens.left() {
        let Some(scale) = scale_of(tokens.peek()) else {
            return Ok(more);
        };
        tokens.take();
        let operand = power(alloc, tokens, depth)?;
        more.push((scale, operand))?;
    }
    Ok(more)
}

/// `POWER { ("*" | "/") POWER }`.
#[cycle(expr)]
#[tactic(auto, unfolding(crate::specs::Reading::product))]
fn product(alloc: Global, tokens: &mut Tokens<'_>, depth: usize) -> Result<Expr, Stop>
    ensures { Reads (spec.product (depths.opening depth) (depths.inside depth) tokens.old) result tokens.new }
{
    let start = tokens.here();
    let first = power(alloc, tokens, depth)?;
    let more = factors(alloc, tokens, depth)?;
    Ok(product_of(alloc, first, more, tokens.since(start))?)
}

/// The operands of a sum behind the first.
#[cycle(expr)]
fn terms(alloc: Global, tokens: &mut Tokens<'_>, depth: usize) -> Result<Items<(Sign, Expr)>, Stop>
    ensures { Reads (many (spec.has kinds.sign_of) (depths.term depth) tokens.old) result tokens.new }
{
    let mut more = Items::new(alloc);
    for _turn in 0..tokens.left() {
        let Some(sign) = sign_of(tokens.peek()) else {
            return Ok(more);
        };
        tokens.take();
        let operand = product(alloc, tokens, depth)?;
        more.push((sign, operand))?;
    }
    Ok(more)
}

/// `PRODUCT { ("+" | "-") PRODUCT }`, in which `depth` more parentheses may be opened.
#[cycle(expr)]
#[tactic(auto, unfolding(crate::specs::Reading::sum_over))]
pub(crate) fn sum(alloc: Global, tokens: &mut Tokens<'_>, depth: usize) -> Result<Expr, Stop>
    ensures { Reads (spec.sum depth tokens.old) result tokens.new }
{
    let start = tokens.here();
    let first = product(alloc, tokens, depth)?;
    let more = terms(alloc, tokens, depth)?;
    Ok(sum_of(alloc, first, more, tokens.since(start))?)
}
