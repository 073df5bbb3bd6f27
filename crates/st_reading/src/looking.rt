//! What stands ahead in the tokens.

ghost use Rattle.std.specs.Prelude.{◌≡◌, ◌≤◌, Err};
ghost use Rattle.st_tokens.specs.Stream.{stream, behind};
ghost use Rattle.st_reading.specs.Reading.{ahead, place_of, refusal, name_of, expected, named, at_end, size, Reads};
ghost use Rattle.st_reading.specs.Breaches.{numeral_of, IsRefused, Refuses};
ghost use Rattle.st_reading.specs.Faults.{see, name_view, IsRefusal};

use crate::fault::ParseFault;
use crate::mark::Mark;
use crate::sign::{Sign, is, numeral_in, sign_of};
use st_tokens::{TokenFault, Tokens};

/// A name, and its place.
#[derive(Clone, Copy, Debug)]
pub struct RawName<'a> {
    pub text: &'a [u8],
    pub place: u64,
}

pub fn ahead(tokens: &Tokens) -> Sign
    ensures { result ≡ ahead (stream tokens.now) }
{
    match tokens.peek() {
        Ok(Some(token)) => sign_of(&token),
        _ => Sign::Nothing,
    }
}

/// The place of what stands ahead.
pub fn place_of(tokens: &Tokens) -> u64
    ensures { result ≡ place_of (stream tokens.now) }
{
    match tokens.peek() {
        Ok(Some(token)) => token.start,
        Ok(None) => tokens.end(),
        Err(TokenFault::BadByte(place)) => place,
        Err(TokenFault::LongNumber(place)) => place,
    }
}

/// The refusal of what stands ahead.
pub fn refusal(tokens: &Tokens) -> ParseFault
    ensures ahead { IsRefusal result (stream tokens.now) }
    ensures refuses { IsRefused {A = Unit {0}} result (Err (refusal (stream tokens.now))) }
{
    match tokens.peek() {
        Ok(Some(token)) => ParseFault::Syntax(token.start),
        Ok(None) => ParseFault::Syntax(tokens.end()),
        Err(fault) => ParseFault::Token(fault),
    }
}

/// The next token as a name.
pub fn name_ahead<'a>(tokens: &Tokens<'a>) -> RawName<'a>
    ensures { name_view result ≡ name_of (stream tokens.now) }
{
    match tokens.peek() {
        Ok(Some(token)) => RawName {
            text: token.text,
            place: token.start,
        },
        _ => RawName {
            text: &[],
            place: 0,
        },
    }
}

/// Passes over the next token.
pub fn advance(tokens: &mut Tokens)
    ensures { stream tokens.new ≡ behind (stream tokens.old) }
{
    let _ = tokens.next();
}

/// Passes over the next token, if it is the one that is wanted, and gives its place.
pub fn expect(tokens: &mut Tokens, wanted: Mark) -> Result<u64, ParseFault>
    ensures reads { Reads see (λ place. place) result (stream tokens.new) (expected wanted (stream tokens.old)) }
    ensures refuses { Refuses (λ place. place) result (stream tokens.new) (expected wanted (stream tokens.old)) }
    ensures shrinks { size (stream tokens.new) ≤ size (stream tokens.old) }
{
    if is(ahead(tokens), wanted) {
        let place = place_of(tokens);
        advance(tokens);
        Ok(place)
    } else {
        Err(refusal(tokens))
    }
}

/// Reads a name.
pub fn name<'a>(tokens: &mut Tokens<'a>) -> Result<RawName<'a>, ParseFault>
    ensures reads { Reads see name_view result (stream tokens.new) (named (stream tokens.old)) }
    ensures refuses { Refuses name_view result (stream tokens.new) (named (stream tokens.old)) }
    ensures shrinks { size (stream tokens.new) ≤ size (stream tokens.old) }
{
    match ahead(tokens) {
        Sign::Name => {
            let name = name_ahead(tokens);
            advance(tokens);
            Ok(name)
        }
        _ => Err(refusal(tokens)),
    }
}

/// Reads a numeral, and gives its value and its place.
#[tactic(auto, unfolding(crate::specs::Breaches::numeral_of))]
pub fn numeral(tokens: &mut Tokens) -> Result<(u32, u64), ParseFault>
    ensures refuses { Refuses (λ n. n) result (stream tokens.new) (numeral_of (stream tokens.old)) }
    ensures shrinks { size (stream tokens.new) ≤ size (stream tokens.old) }
{
    let Some(number) = numeral_in(ahead(tokens)) else {
        return Err(refusal(tokens));
    };
    let place = place_of(tokens);
    advance(tokens);
    Ok((number, place))
}

/// The end of the text.
#[tactic(auto, unfolding(crate::specs::Reading::at_end))]
pub fn at_end(tokens: &mut Tokens) -> Result<(), ParseFault>
    ensures reads { Reads see (λ x. x) result (stream tokens.new) (at_end (stream tokens.old)) }
    ensures refuses { Refuses (λ x. x) result (stream tokens.new) (at_end (stream tokens.old)) }
    ensures shrinks { size (stream tokens.new) ≤ size (stream tokens.old) }
{
    match tokens.peek() {
        Ok(None) => Ok(()),
        _ => Err(refusal(tokens)),
    }
}
