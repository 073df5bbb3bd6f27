//! What a formula's tokens come to in a state, by a stack of values and one of signs that wait for their right side (E. W. Dijkstra,
//! *Algol 60 translation*, 1961). No recursion, so nesting takes no stack; what isn't understood has no value.

use crate::source::word_of;
use crate::trials::{Trial, Value};
use st_memory::Memory;
use std::alloc::Global;

/// A sign that waits for what stands behind it.
#[derive(Clone, Copy, PartialEq, Eq)]
enum Sign {
    Open,
    Implies,
    Or,
    And,
    Not,
    Equal,
    Unequal,
    Less,
    AtMost,
    Greater,
    AtLeast,
    Plus,
    Minus,
    Times,
    Negative,
}

impl Sign {
    /// The sign that stands between two parts.
    fn between(word: &str) -> Option<Sign> {
        Some(match word {
            "->" => Sign::Implies,
            "\\/" => Sign::Or,
            "/\\" => Sign::And,
            "=" => Sign::Equal,
            "!=" => Sign::Unequal,
            "<" => Sign::Less,
            "<=" => Sign::AtMost,
            ">" => Sign::Greater,
            ">=" => Sign::AtLeast,
            "+" => Sign::Plus,
            "-" => Sign::Minus,
            "*" => Sign::Times,
            _ => return None,
        })
    }

    /// The sign that stands in front of a part.
    fn before(word: &str) -> Option<Sign> {
        match word {
            "(" => Some(Sign::Open),
            "~" => Some(Sign::Not),
            "-" => Some(Sign::Negative),
            _ => None,
        }
    }

    /// How closely it holds what stands around it.
    fn rank(self) -> u8 {
        match self {
            Sign::Open => 0,
            Sign::Implies => 1,
            Sign::Or => 2,
            Sign::And => 3,
            Sign::Not => 4,
            Sign::Plus | Sign::Minus => 6,
            Sign::Times => 7,
            Sign::Negative => 8,
            _ => 5,
        }
    }
}

/// What a sign makes of truth values.
fn of_truths(sign: Sign, left: bool, right: bool) -> Option<Value> {
    match sign {
        Sign::Implies => Some(Value::Truth(!left || right)),
        Sign::Or => Some(Value::Truth(left || right)),
        Sign::And => Some(Value::Truth(left && right)),
        _ => None,
    }
}

/// What a sign makes of numbers.
fn of_numbers(sign: Sign, left: i64, right: i64) -> Option<Value> {
    match sign {
        Sign::Equal => Some(Value::Truth(left == right)),
        Sign::Unequal => Some(Value::Truth(left != right)),
        Sign::Less => Some(Value::Truth(left < right)),
        Sign::AtMost => Some(Value::Truth(left <= right)),
        Sign::Greater => Some(Value::Truth(left > right)),
        Sign::AtLeast => Some(Value::Truth(left >= right)),
        Sign::Plus => Some(Value::Number(left.checked_add(right)?)),
        Sign::Minus => Some(Value::Number(left.checked_sub(right)?)),
        Sign::Times => Some(Value::Number(left.checked_mul(right)?)),
        _ => None,
    }
}

/// What a sign makes of the values on top of the stack.
fn applied(sign: Sign, values: &mut Vec<Value>) -> Option<Value> {
    let right = values.pop()?;
    match (sign, right) {
        (Sign::Not, Value::Truth(right)) => return Some(Value::Truth(!right)),
        (Sign::Negative, Value::Number(right)) => return Some(Value::Number(right.checked_neg()?)),
        _ => {}
    }
    match (values.pop()?, right) {
        (Value::Truth(left), Value::Truth(right)) => of_truths(sign, left, right),
        (Value::Number(left), Value::Number(right)) => of_numbers(sign, left, right),
        _ => None,
    }
}

/// What is computed so far.
#[derive(Drop)]
struct Stacks {
    values: Vec<Value>,
    signs: Vec<Sign>,
}

impl Stacks {
    /// Applies the signs that hold what stands before more closely than a rank does. Whether each had what it asks for.
    fn apply_above(&mut self, rank: u8) -> Result<bool, Memory> {
        for _ in 0..self.signs.len() {
            let Some(sign) = self.signs.last().copied() else {
                return Ok(true);
            };
            if sign.rank() <= rank {
                return Ok(true);
            }
            self.signs.pop();
            match applied(sign, &mut self.values) {
                Some(value) => self.values.push(value)?,
                None => return Ok(false),
            }
        }
        Ok(true)
    }

    /// Takes a word behind a part. Whether that can be, and whether a part stands behind it.
    fn take_between(&mut self, word: &str) -> Result<Option<bool>, Memory> {
        if word == ")" {
            let is_well = self.apply_above(0)?;
            return Ok((is_well && self.signs.pop().is_some()).then_some(false));
        }
        let Some(sign) = Sign::between(word) else {
            return Ok(None);
        };
        // An implication waits for those behind it.
        let rank = if sign == Sign::Implies {
            1
        } else {
            sign.rank().saturating_sub(1)
        };
        let is_well = self.apply_above(rank)?;
        self.signs.push(sign)?;
        Ok(is_well.then_some(true))
    }
}

/// What a claim comes to in a state that is tried; `None` where it isn't understood.
pub(crate) fn computed(alloc: Global, trial: &Trial<'_, '_>) -> Result<Option<Value>, Memory> {
    let mut stacks = Stacks {
        values: Vec::new(alloc),
        signs: Vec::new(alloc),
    };
    let mut is_asked = true;
    let mut is_label = false;
    for (place, token) in trial.tokens.iter().enumerate() {
        let word = word_of(token);
        if !is_asked {
            match stacks.take_between(word)? {
                Some(asked) => is_asked = asked,
                None => return Ok(None),
            }
        } else if word == "at" && !is_label {
            is_label = true;
        } else if let (Some(sign), false) = (Sign::before(word), is_label) {
            stacks.signs.push(sign)?;
        } else {
            match trial.value(place) {
                Some(value) => stacks.values.push(value)?,
                None => return Ok(None),
            }
            is_asked = false;
            is_label = false;
        }
    }
    let is_well = !is_asked && stacks.apply_above(0)? && stacks.signs.is_empty();
    Ok(if is_well { stacks.values.pop() } else { None })
}
