//! The words of leaves and of cuts.

ghost use Rattle.std.specs.Prelude.{◌≡◌, map};
ghost use Rattle.shared_certificates.specs.Reading.{all_of, few_of, line, pick, signed, term};
ghost use Rattle.shared_certificates.specs.Views.{bytes_of};
ghost use Rattle.shared_certificates.specs.Answers.{Gives};

use crate::numbers::{index, number, signed};
use crate::words::halves;
use shared_certificates::Refusal;
use std::alloc::Global;

/// A multiplier is at most so large.
const MULTIPLIER: u64 = 1_099_511_627_775;

/// An entry of a cut is at most so large.
const ENTRY: u64 = 1_152_921_504_606_846_976;

/// A leaf has at most so many picks.
const MOST_PICKS: usize = 4_096;

/// A row and its multiplier.
#[tactic(auto, unfolding(shared_certificates::specs::Reading::pick))]
fn pick(word: &[u8]) -> Result<(u32, u64), Refusal>
    ensures { Gives (λ p. p) result (pick word.now) }
{
    match halves(b'*', word) {
        Some((row, multiplier)) => Ok((index(row)?, number(MULTIPLIER, multiplier)?)),
        None => Err(Refusal::Malformed),
    }
}

/// A line and its multiplier.
#[tactic(auto, unfolding(shared_certificates::specs::Reading::line))]
fn line(word: &[u8]) -> Result<(u32, i64), Refusal>
    ensures { Gives (λ p. p) result (line word.now) }
{
    match halves(b'*', word) {
        Some((row, multiplier)) => Ok((index(row)?, signed(MULTIPLIER, multiplier)?)),
        None => Err(Refusal::Malformed),
    }
}

/// A coefficient and its variable.
#[tactic(auto, unfolding(shared_certificates::specs::Reading::term))]
fn term(word: &[u8]) -> Result<(u32, i128), Refusal>
    ensures { Gives (λ p. p) result (term word.now) }
{
    match halves(b':', word) {
        Some((coefficient, variable)) => {
            let coefficient = signed(ENTRY, coefficient)?;
            Ok((index(variable)?, i128::from(coefficient)))
        }
        None => Err(Refusal::Malformed),
    }
}

/// The number before the colon of a cut.
pub fn constant(word: &[u8]) -> Result<i128, Refusal>
    ensures { Gives (λ z. z) result (signed 1152921504606846976 word.now) }
{
    Ok(i128::from(signed(ENTRY, word)?))
}

fn all_picks(alloc: Global, words: &[&[u8]]) -> Result<Vec<(u32, u64)>, Refusal>
    ensures { Gives (λ v. v.items) result (all_of pick (map bytes_of words.now)) }
{
    let mut out = Vec::with_capacity(alloc, words.len())?;
    for word in words {
        let read = pick(word)?;
        out.push(read)?;
    }
    Ok(out)
}

/// So many at most.
pub fn picks(alloc: Global, words: &[&[u8]]) -> Result<Vec<(u32, u64)>, Refusal>
    ensures { Gives (λ v. v.items) result (few_of pick (map bytes_of words.now)) }
{
    if words.len() > MOST_PICKS {
        return Err(Refusal::Limit);
    }
    all_picks(alloc, words)
}

fn all_lines(alloc: Global, words: &[&[u8]]) -> Result<Vec<(u32, i64)>, Refusal>
    ensures { Gives (λ v. v.items) result (all_of line (map bytes_of words.now)) }
{
    let mut out = Vec::with_capacity(alloc, words.len())?;
    for word in words {
        let read = line(word)?;
        out.push(read)?;
    }
    Ok(out)
}

/// So many at most.
pub fn lines(alloc: Global, words: &[&[u8]]) -> Result<Vec<(u32, i64)>, Refusal>
    ensures { Gives (λ v. v.items) result (few_of line (map bytes_of words.now)) }
{
    if words.len() > MOST_PICKS {
        return Err(Refusal::Limit);
    }
    all_lines(alloc, words)
}

pub fn terms(alloc: Global, words: &[&[u8]]) -> Result<Vec<(u32, i128)>, Refusal>
    ensures { Gives (λ v. v.items) result (all_of term (map bytes_of words.now)) }
{
    let mut out = Vec::with_capacity(alloc, words.len())?;
    for word in words {
        let read = term(word)?;
        out.push(read)?;
    }
    Ok(out)
}
