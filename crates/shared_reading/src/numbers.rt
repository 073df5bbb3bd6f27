//! Numbers as words: digits, without a needless zero in front.

ghost use Rattle.std.specs.Prelude.{◌≡◌, ◌<◌, ◌≤◌, ◌^◌, IfOk, MatchOption};
ghost use Rattle.shared_certificates.specs.Reading.{are_digits, index, is_digit, is_numeral, number, reference, signed, value_behind};
ghost use Rattle.shared_certificates.specs.Answers.{Gives};

use shared_certificates::Refusal;

fn is_digit(b: u8) -> bool
    ensures { result ≡ is_digit b }
{
    b'0' <= b && b <= b'9'
}

fn are_digits(word: &[u8]) -> bool
    ensures { result ≡ are_digits word.now }
{
    for b in word {
        if !is_digit(*b) {
            return false;
        }
    }
    true
}

fn is_numeral(word: &[u8]) -> bool
    ensures { result ≡ is_numeral word.now }
{
    match word {
        [] => false,
        [d] => is_digit(*d),
        [d, ..] => *d != b'0' && are_digits(word),
    }
}

/// The number that the digits write, if it is at most so much.
fn value_within(most: u64, digits: &[u8]) -> Option<u64>
    requires { most ≤ 2 ^ 60 }
    ensures { MatchOption result (most < value_behind 0 digits.now) (λ n. (n ≤ most) × (n ≡ value_behind 0 digits.now)) }
{
    let mut value: u64 = 0;
    for b in digits {
        value = value * 10 + u64::from(b.saturating_sub(b'0'));
        if value > most {
            return None;
        }
    }
    Some(value)
}

/// A number of at most so much.
#[tactic(auto, unfolding(shared_certificates::specs::Reading::number))]
pub fn number(most: u64, word: &[u8]) -> Result<u64, Refusal>
    requires { most ≤ 2 ^ 60 }
    ensures exact { Gives (λ n. n) result (number most word.now) }
    ensures within { IfOk result (λ n. n ≤ most) }
{
    if !is_numeral(word) {
        return Err(Refusal::Malformed);
    }
    match value_within(most, word) {
        Some(n) => Ok(n),
        None => Err(Refusal::Limit),
    }
}

/// A number that counts from 1 in the text, and from 0 otherwise.
#[tactic(auto, unfolding(shared_certificates::specs::Reading::index))]
pub fn index(word: &[u8]) -> Result<u32, Refusal>
    ensures { Gives (λ n. n) result (index word.now) }
{
    let n = number(4_294_967_295, word)?;
    if n == 0 {
        return Err(Refusal::Malformed);
    }
    Ok((n - 1) as u32)
}

/// A number with its sign, of at most this size.
#[tactic(auto, unfolding(shared_certificates::specs::Reading::signed))]
pub fn signed(most: u64, word: &[u8]) -> Result<i64, Refusal>
    requires { most ≤ 2 ^ 60 }
    ensures { Gives (λ n. n) result (signed most word.now) }
{
    match word {
        [] => Err(Refusal::Malformed),
        [b'-', digits @ ..] => {
            let n = number(most, digits)?;
            if n == 0 {
                return Err(Refusal::Malformed);
            }
            Ok(-(n as i64))
        }
        _ => Ok(number(most, word)? as i64),
    }
}

/// The number of one of so many trees.
#[tactic(auto, unfolding(shared_certificates::specs::Reading::reference))]
pub fn reference(count: usize, word: &[u8]) -> Result<u32, Refusal>
    ensures { Gives (λ n. n) result (reference count word.now) }
{
    let n = index(word)?;
    if (n as usize) < count {
        Ok(n)
    } else {
        Err(Refusal::Malformed)
    }
}
