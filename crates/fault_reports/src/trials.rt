//! States that are tried on a claim, and what a name or a number of its text is worth there.

use crate::source::word_of;
use st_tokens::Token;

/// The value of a part of a formula.
#[derive(Clone, Copy)]
pub(crate) enum Value {
    Truth(bool),
    Number(i64),
}

/// What numbers the variables have in a state that is tried.
#[derive(Clone, Copy)]
pub(crate) enum Numbers {
    All(i64),
    /// Each another one.
    Distinct,
}

/// A state that is tried on a claim.
#[derive(Drop)]
pub(crate) struct Trial<'t, 'h> {
    pub tokens: &'t [Token<'t>],
    pub held: &'h [&'t str],
    pub numbers: Numbers,
    pub truth: bool,
}

pub(crate) fn word_at<'b>(tokens: &'b [Token<'b>], at: usize) -> &'b str {
    match tokens.get(at) {
        Some(token) => word_of(token),
        None => "",
    }
}

/// Whether a word stands beside numbers.
fn is_of_numbers(word: &str) -> bool {
    matches!(word, "=" | "!=" | "<" | "<=" | ">" | ">=" | "+" | "-" | "*")
}

/// The number that digits are; `None` where they are too many.
fn number(word: &str) -> Option<i64> {
    let mut found: i64 = 0;
    for digit in word.bytes() {
        found = found
            .checked_mul(10)?
            .checked_add((digit as i64).checked_sub(48)?)?;
    }
    Some(found)
}

impl Trial<'_, '_> {
    /// The place of a name's first occurrence in the claim.
    fn first(&self, name: &str) -> usize {
        self.tokens
            .iter()
            .position(|token| word_of(token) == name)
            .unwrap_or(0)
    }

    /// What a name or a number at a place is worth.
    pub(crate) fn value(&self, at: usize) -> Option<Value> {
        let word = word_at(self.tokens, at);
        let before = word_at(self.tokens, at.saturating_sub(1));
        let behind = word_at(self.tokens, at.saturating_add(1));
        if 0 < at && before == "at" {
            return Some(Value::Truth(self.held.iter().any(|label| *label == word)));
        }
        let first = word.as_bytes().first().copied()?;
        match word {
            "true" => Some(Value::Truth(true)),
            "false" => Some(Value::Truth(false)),
            _ if first.is_ascii_digit() => Some(Value::Number(number(word)?)),
            _ if !first.is_ascii_alphabetic() => None,
            _ if is_of_numbers(behind) || 0 < at && is_of_numbers(before) => {
                Some(Value::Number(match self.numbers {
                    Numbers::All(number) => number,
                    Numbers::Distinct => i64::try_from(self.first(word)).ok()?,
                }))
            }
            _ => Some(Value::Truth(self.truth)),
        }
    }
}
