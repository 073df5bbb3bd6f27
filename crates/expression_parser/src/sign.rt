//! What begins an expression, and what continues one.

ghost use Rattle.std.specs.Prelude.{◌≡◌};
ghost use Rattle.expression_parser.specs.Signs.{front_mark, front, product_sign, sum_sign, comparison_sign};

use crate::raw::Operator;
use st_reading::{Mark, Sign, is};

/// What stands at the front of an expression.
#[derive(Clone, Copy, Debug)]
pub enum Front {
    Numeral(u32),
    Truth(bool),
    Name,
    At,
    Open,
    Minus,
    Not,
    Other,
}

fn front_mark(places: bool, sign: Sign) -> Front
    ensures { result ≡ front_mark places sign }
{
    if is(sign, Mark::True) {
        Front::Truth(true)
    } else if is(sign, Mark::False) {
        Front::Truth(false)
    } else if is(sign, Mark::Open) {
        Front::Open
    } else if is(sign, Mark::Minus) {
        Front::Minus
    } else if is(sign, Mark::Not) {
        Front::Not
    } else if is(sign, Mark::At) && places {
        Front::At
    } else {
        Front::Other
    }
}

/// `at` stands in proofs alone, where `places` are asked for.
pub fn front_of(places: bool, sign: Sign) -> Front
    ensures { result ≡ front places sign }
{
    match sign {
        Sign::Numeral(n) => Front::Numeral(n),
        Sign::Name => Front::Name,
        _ => front_mark(places, sign),
    }
}

pub fn product_operator(sign: Sign) -> Option<Operator>
    ensures { result ≡ product_sign sign }
{
    if is(sign, Mark::Times) {
        Some(Operator::Times)
    } else {
        None
    }
}

pub fn sum_operator(sign: Sign) -> Option<Operator>
    ensures { result ≡ sum_sign sign }
{
    if is(sign, Mark::Plus) {
        Some(Operator::Plus)
    } else if is(sign, Mark::Minus) {
        Some(Operator::Minus)
    } else {
        None
    }
}

pub fn comparison_operator(sign: Sign) -> Option<Operator>
    ensures { result ≡ comparison_sign sign }
{
    if is(sign, Mark::Equal) {
        Some(Operator::Equal)
    } else if is(sign, Mark::Unequal) {
        Some(Operator::Unequal)
    } else if is(sign, Mark::Less) {
        Some(Operator::Less)
    } else if is(sign, Mark::AtMost) {
        Some(Operator::AtMost)
    } else if is(sign, Mark::Greater) {
        Some(Operator::Greater)
    } else if is(sign, Mark::AtLeast) {
        Some(Operator::AtLeast)
    } else {
        None
    }
}
