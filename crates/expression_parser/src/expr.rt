//! Formulas.

ghost use Rattle.std.specs.Prelude.{◌≡◌, ◌≤◌, MatchResult};
ghost use Rattle.st_tokens.specs.Stream.{stream, behind};
ghost use Rattle.st_reading.specs.declared.fault.ParseFault.TheVariants.{Memory};
ghost use Rattle.st_reading.specs.Reading.{Reads, size};
ghost use Rattle.st_reading.specs.Faults.{see};
ghost use Rattle.expression_parser.specs.ExpressionTree.{node, expr_view, kind_view, terms_view, joined};
ghost use Rattle.expression_parser.specs.Reading.{below, atom_of, unary_of, product_of, sum_of, comparison_of, negation_of, conjunction_of, disjunction_of, expression_of};

use crate::raw::{Operator, RawExpr, RawExprKind, RawTerm};
use crate::sign::{Front, comparison_operator, front_of, product_operator, sum_operator};
use st_reading::{
    Mark, ParseFault, advance, ahead, expect, is, name, name_ahead, place_of, refusal,
};
use st_tokens::{LimitKind, Tokens};
use std::alloc::Global;

/// Two expressions and the operator between them.
fn join<'a>(
    alloc: Global,
    operator: Operator,
    at: u64,
    left: RawExpr<'a>,
    right: RawExpr<'a>,
) -> Result<RawExpr<'a>, ParseFault>
    ensures { MatchResult result (λ e. expr_view e ≡ joined operator at (expr_view left.entry) (expr_view right.entry)) (λ e. e ≡ Memory) }
{
    let place = left.place;
    let left = Box::new(alloc, left)?;
    let right = Box::new(alloc, right)?;
    Ok(RawExpr {
        place,
        kind: RawExprKind::Pair {
            operator,
            at,
            left,
            right,
        },
    })
}

/// An expression and the terms or factors behind it, where there are any.
fn chain_of<'a>(
    alloc: Global,
    first: RawExpr<'a>,
    rest: Vec<RawTerm<'a>>,
) -> Result<RawExpr<'a>, ParseFault>
    ensures { MatchResult result (λ e. expr_view e ≡ terms_view (expr_view first.entry) rest.entry.items) (λ e. e ≡ Memory) }
{
    if rest.is_empty() {
        return Ok(first);
    }
    let place = first.place;
    let first = Box::new(alloc, first)?;
    Ok(RawExpr {
        place,
        kind: RawExprKind::Chain { first, rest },
    })
}

/// An expression of one token, which stands ahead.
fn single<'a>(place: u64, kind: RawExprKind<'a>, tokens: &mut Tokens<'a>) -> RawExpr<'a>
    ensures made { expr_view result ≡ node place (kind_view kind.entry) }
    ensures rest { stream tokens.new ≡ behind (stream tokens.old) }
{
    advance(tokens);
    RawExpr { place, kind }
}

#[cycle(expr)]
#[tactic(auto, unfolding(crate::specs::Reading::atom_of, crate::specs::Reading::below))]
fn atom<'a>(
    alloc: Global,
    places: bool,
    room: u32,
    tokens: &mut Tokens<'a>,
) -> Result<RawExpr<'a>, ParseFault>
    ensures reads { Reads see expr_view result (stream tokens.new) (atom_of places (below places room) (stream tokens.old)) }
    ensures shrinks { size (stream tokens.new) ≤ size (stream tokens.old) }
{
    let place = place_of(tokens);
    match front_of(places, ahead(tokens)) {
        Front::Numeral(n) => Ok(single(place, RawExprKind::Numeral(n), tokens)),
        Front::Truth(b) => Ok(single(place, RawExprKind::Truth(b), tokens)),
        Front::Name => {
            let name = name_ahead(tokens);
            advance(tokens);
            Ok(RawExpr {
                place,
                kind: RawExprKind::Name(name),
            })
        }
        Front::At => {
            advance(tokens);
            let name = name(tokens)?;
            Ok(RawExpr {
                place,
                kind: RawExprKind::At(name),
            })
        }
        Front::Open => {
            if room == 0 {
                return Err(ParseFault::Limit(LimitKind::Nesting, place));
            }
            advance(tokens);
            let inner = expression(alloc, places, room - 1, tokens)?;
            expect(tokens, Mark::Close)?;
            Ok(RawExpr {
                place,
                kind: inner.kind,
            })
        }
        _ => Err(refusal(tokens)),
    }
}

#[cycle(expr)]
#[tactic(auto, unfolding(crate::specs::Reading::unary_of, crate::specs::Reading::below))]
fn unary<'a>(
    alloc: Global,
    places: bool,
    room: u32,
    tokens: &mut Tokens<'a>,
) -> Result<RawExpr<'a>, ParseFault>
    ensures reads { Reads see expr_view result (stream tokens.new) (unary_of places (below places room) (stream tokens.old)) }
    ensures shrinks { size (stream tokens.new) ≤ size (stream tokens.old) }
{
    match front_of(places, ahead(tokens)) {
        Front::Minus => {
            let place = place_of(tokens);
            if room == 0 {
                return Err(ParseFault::Limit(LimitKind::Nesting, place));
            }
            advance(tokens);
            let of = unary(alloc, places, room - 1, tokens)?;
            let of = Box::new(alloc, of)?;
            Ok(RawExpr {
                place,
                kind: RawExprKind::Negate { at: place, of },
            })
        }
        _ => atom(alloc, places, room, tokens),
    }
}

#[cycle(expr)]
#[tactic(auto, unfolding(crate::specs::Reading::product_of))]
fn product<'a>(
    alloc: Global,
    places: bool,
    room: u32,
    tokens: &mut Tokens<'a>,
) -> Result<RawExpr<'a>, ParseFault>
    ensures reads { Reads see expr_view result (stream tokens.new) (product_of places (below places room) (stream tokens.old)) }
    ensures shrinks { size (stream tokens.new) ≤ size (stream tokens.old) }
{
    let first = unary(alloc, places, room, tokens)?;
    let mut rest = Vec::new(alloc);
    'chain: while let Some(operator) = product_operator(ahead(tokens)) {
        let at = place_of(tokens);
        advance(tokens);
        let of = unary(alloc, places, room, tokens)?;
        rest.push(RawTerm { operator, at, of })?;
    }
    chain_of(alloc, first, rest)
}

/// Reads the longest sum, at most `room` levels deep. `at` names stand where `places` are asked for.
#[cycle(expr)]
#[tactic(auto, unfolding(crate::specs::Reading::sum_of))]
pub fn sum<'a>(
    alloc: Global,
    places: bool,
    room: u32,
    tokens: &mut Tokens<'a>,
) -> Result<RawExpr<'a>, ParseFault>
    ensures reads { Reads see expr_view result (stream tokens.new) (sum_of places (below places room) (stream tokens.old)) }
    ensures shrinks { size (stream tokens.new) ≤ size (stream tokens.old) }
{
    let first = product(alloc, places, room, tokens)?;
    let mut rest = Vec::new(alloc);
    'chain: while let Some(operator) = sum_operator(ahead(tokens)) {
        let at = place_of(tokens);
        advance(tokens);
        let of = product(alloc, places, room, tokens)?;
        rest.push(RawTerm { operator, at, of })?;
    }
    chain_of(alloc, first, rest)
}

#[cycle(expr)]
#[tactic(auto, unfolding(crate::specs::Reading::comparison_of))]
fn comparison<'a>(
    alloc: Global,
    places: bool,
    room: u32,
    tokens: &mut Tokens<'a>,
) -> Result<RawExpr<'a>, ParseFault>
    ensures reads { Reads see expr_view result (stream tokens.new) (comparison_of places (below places room) (stream tokens.old)) }
    ensures shrinks { size (stream tokens.new) ≤ size (stream tokens.old) }
{
    let left = sum(alloc, places, room, tokens)?;
    match comparison_operator(ahead(tokens)) {
        Some(operator) => {
            let at = place_of(tokens);
            advance(tokens);
            let right = sum(alloc, places, room, tokens)?;
            join(alloc, operator, at, left, right)
        }
        None => Ok(left),
    }
}

#[cycle(expr)]
#[tactic(auto, unfolding(crate::specs::Reading::negation_of, crate::specs::Reading::below))]
fn negation<'a>(
    alloc: Global,
    places: bool,
    room: u32,
    tokens: &mut Tokens<'a>,
) -> Result<RawExpr<'a>, ParseFault>
    ensures reads { Reads see expr_view result (stream tokens.new) (negation_of places (below places room) (stream tokens.old)) }
    ensures shrinks { size (stream tokens.new) ≤ size (stream tokens.old) }
{
    match front_of(places, ahead(tokens)) {
        Front::Not => {
            let place = place_of(tokens);
            if room == 0 {
                return Err(ParseFault::Limit(LimitKind::Nesting, place));
            }
            advance(tokens);
            let of = negation(alloc, places, room - 1, tokens)?;
            let of = Box::new(alloc, of)?;
            Ok(RawExpr {
                place,
                kind: RawExprKind::Not(of),
            })
        }
        _ => comparison(alloc, places, room, tokens),
    }
}

#[cycle(expr)]
#[tactic(auto, unfolding(crate::specs::Reading::conjunction_of))]
fn conjunction<'a>(
    alloc: Global,
    places: bool,
    room: u32,
    tokens: &mut Tokens<'a>,
) -> Result<RawExpr<'a>, ParseFault>
    ensures reads { Reads see expr_view result (stream tokens.new) (conjunction_of places (below places room) (stream tokens.old)) }
    ensures shrinks { size (stream tokens.new) ≤ size (stream tokens.old) }
{
    let first = negation(alloc, places, room, tokens)?;
    if !is(ahead(tokens), Mark::And) {
        return Ok(first);
    }
    let place = first.place;
    let mut items = Vec::new(alloc);
    items.push(first)?;
    'chain: while is(ahead(tokens), Mark::And) {
        advance(tokens);
        let item = negation(alloc, places, room, tokens)?;
        items.push(item)?;
    }
    Ok(RawExpr {
        place,
        kind: RawExprKind::All(items),
    })
}

#[cycle(expr)]
#[tactic(auto, unfolding(crate::specs::Reading::disjunction_of))]
fn disjunction<'a>(
    alloc: Global,
    places: bool,
    room: u32,
    tokens: &mut Tokens<'a>,
) -> Result<RawExpr<'a>, ParseFault>
    ensures reads { Reads see expr_view result (stream tokens.new) (disjunction_of places (below places room) (stream tokens.old)) }
    ensures shrinks { size (stream tokens.new) ≤ size (stream tokens.old) }
{
    let first = conjunction(alloc, places, room, tokens)?;
    if !is(ahead(tokens), Mark::Or) {
        return Ok(first);
    }
    let place = first.place;
    let mut items = Vec::new(alloc);
    items.push(first)?;
    'chain: while is(ahead(tokens), Mark::Or) {
        advance(tokens);
        let item = conjunction(alloc, places, room, tokens)?;
        items.push(item)?;
    }
    Ok(RawExpr {
        place,
        kind: RawExprKind::Any(items),
    })
}

/// Reads the longest formula, at most `room` levels deep: open parentheses, `~`, unary `-` and `->`. `at` names stand where
/// `places` are asked for, as in proofs. What stands behind the formula is left.
#[cycle(expr)]
#[tactic(auto, unfolding(crate::specs::Reading::expression_of, crate::specs::Reading::below))]
pub fn expression<'a>(
    alloc: Global,
    places: bool,
    room: u32,
    tokens: &mut Tokens<'a>,
) -> Result<RawExpr<'a>, ParseFault>
    ensures reads { Reads see expr_view result (stream tokens.new) (expression_of places (below places room) (stream tokens.old)) }
    ensures shrinks { size (stream tokens.new) ≤ size (stream tokens.old) }
{
    let left = disjunction(alloc, places, room, tokens)?;
    if is(ahead(tokens), Mark::Implies) {
        let at = place_of(tokens);
        if room == 0 {
            return Err(ParseFault::Limit(LimitKind::Nesting, at));
        }
        advance(tokens);
        let right = expression(alloc, places, room - 1, tokens)?;
        join(alloc, Operator::Implies, at, left, right)
    } else {
        Ok(left)
    }
}
