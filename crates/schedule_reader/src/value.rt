//! Values of variables.

ghost use Rattle.std.specs.Prelude.{◌≡◌, ◌≤◌, IfOk};
ghost use Rattle.st_tokens.specs.Stream.{stream};
ghost use Rattle.st_reading.specs.Reading.{Reads, size};
ghost use Rattle.schedule_reader.specs.Faults.{see};
ghost use Rattle.schedule_reader.specs.Values.{value_in, has_type, value_of, typed_of};

use crate::fault::ScheduleFault;
use st_program::Datum;
use st_reading::{Mark, Sign, advance, ahead, is, numeral, numeral_in, place_of, refusal};
use st_tokens::Tokens;

/// The value that a token is by itself.
fn value_in(sign: Sign) -> Option<Datum>
    ensures { result ≡ value_in sign }
{
    if is(sign, Mark::True) {
        return Some(Datum::Truth(true));
    }
    if is(sign, Mark::False) {
        return Some(Datum::Truth(false));
    }
    match numeral_in(sign) {
        Some(number) => Some(Datum::Number(i128::from(number))),
        None => None,
    }
}

/// A whole number or a truth value.
#[tactic(auto, unfolding(crate::specs::Values::value_of))]
fn value(tokens: &mut Tokens) -> Result<Datum, ScheduleFault>
    ensures reads { Reads see (λ d. d) result (stream tokens.new) (value_of (stream tokens.old)) }
    ensures shrinks { IfOk result (λ _. size (stream tokens.new) ≤ size (stream tokens.old)) }
{
    if is(ahead(tokens), Mark::Minus) {
        advance(tokens);
        let (number, _) = numeral(tokens)?;
        return Ok(Datum::Number(-i128::from(number)));
    }
    let Some(value) = value_in(ahead(tokens)) else {
        return Err(ScheduleFault::from(refusal(tokens)));
    };
    advance(tokens);
    Ok(value)
}

/// Whether the value is one of a boolean variable, or of an integer variable.
fn has_type(truth: bool, value: Datum) -> bool
    ensures { result ≡ has_type truth value }
{
    match value {
        Datum::Number(_) => !truth,
        Datum::Truth(_) => truth,
    }
}

/// The value of a boolean variable, or of an integer variable. It is judged when it is whole.
#[tactic(auto, unfolding(crate::specs::Values::typed_of))]
pub fn typed_value(truth: bool, tokens: &mut Tokens) -> Result<Datum, ScheduleFault>
    ensures reads { Reads see (λ d. d) result (stream tokens.new) (typed_of truth (stream tokens.old)) }
    ensures shrinks { IfOk result (λ _. size (stream tokens.new) ≤ size (stream tokens.old)) }
{
    let place = place_of(tokens);
    let value = value(tokens)?;
    if !has_type(truth, value) {
        return Err(ScheduleFault::WrongType(place));
    }
    Ok(value)
}
