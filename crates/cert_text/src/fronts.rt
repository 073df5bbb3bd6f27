//! What stands in front of some bytes.

ghost use Rattle.std.specs.Prelude.{◌≡◌, ◌+◌, ◌<◌, ◌≤◌, length};
ghost use Rattle.std.specs.List.{prefix_len};
ghost use Rattle.cert_text.specs.Letters.{is_letter, is_digit};
ghost use Rattle.cert_text.specs.Fronts.{number_by, takes_numbers};

use crate::letters::{grown, is_digit, is_letter};
use crate::scan::Want;

/// How many letters stand in front.
pub fn letter_len(bytes: &[u8]) -> usize
    ensures len { result ≡ prefix_len is_letter bytes.now }
    ensures within { result ≤ length bytes.now }
{
    bytes.iter().take_while(|b| is_letter(**b)).count()
}

/// The number in front, and how many digits it has.
pub fn number(bytes: &[u8]) -> (u64, usize)
    ensures value { result.0 ≡ number_by 0 bytes.now }
    ensures len { result.1 ≡ prefix_len is_digit bytes.now }
    ensures within { result.1 ≤ length bytes.now }
{
    let mut value = 0;
    let mut len = 0;
    for b in bytes {
        if !is_digit(*b) {
            return (value, len);
        }
        value = grown(value, *b);
        len += 1;
    }
    (value, len)
}

/// Whatever digits are read here, a number may stand.
pub fn takes_numbers(want: Want) -> bool
    ensures { result ≡ takes_numbers want }
{
    match want {
        Want::Subject(_) => true,
        Want::Row {
            signed: _,
            count: _,
        } => true,
        Want::Multiplier {
            signed: _,
            count: _,
            row: _,
        } => true,
        Want::Negative { count: _, row: _ } => true,
        Want::Coefficient {
            first: _,
            negative: _,
            last: _,
        } => true,
        Want::Variable {
            negative: _,
            size: _,
            last: _,
        } => true,
        Want::Constant { negative: _ } => true,
        _ => false,
    }
}
