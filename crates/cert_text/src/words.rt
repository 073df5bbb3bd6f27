//! Words and numbers while they grow: which words there are, and whether what is there of one can still become a word or a
//! number that may stand here.

ghost use Rattle.std.specs.Prelude.{◌≡◌, ◌<◌};
ghost use Rattle.std.specs.Str.{bytes_eq};
ghost use Rattle.cert_text.specs.Control.{word_of, begins, begins_tree, fits_word, fits_number, begins_number};

use crate::scan::{Scan, Want, Word};

pub fn is_word(letters: &[u8], word: &[u8]) -> bool
    ensures { result ≡ bytes_eq letters.now word.now }
{
    if letters.len() != word.len() {
        return false;
    }
    for (i, letter) in letters.iter().enumerate() {
        if *letter != word[i] {
            return false;
        }
    }
    true
}

/// The word that these letters are.
#[tactic(auto, unfolding(crate::specs::Control::word_of))]
pub fn word_of(letters: &[u8]) -> Option<Word>
    ensures { result ≡ word_of letters.now }
{
    if is_word(letters, b"version") {
        Some(Word::Version)
    } else if is_word(letters, b"cert") {
        Some(Word::Cert)
    } else if is_word(letters, b"absurd") {
        Some(Word::Absurd)
    } else if is_word(letters, b"farkas") {
        Some(Word::Farkas)
    } else if is_word(letters, b"linear") {
        Some(Word::Linear)
    } else if is_word(letters, b"case") {
        Some(Word::Case)
    } else if is_word(letters, b"bool") {
        Some(Word::Truth)
    } else if is_word(letters, b"split") {
        Some(Word::Split)
    } else if is_word(letters, b"cut") {
        Some(Word::Cut)
    } else {
        None
    }
}

/// Whether the word goes on from these letters, or is them.
#[tactic(auto, unfolding(crate::specs::Control::begins))]
pub fn begins(letters: &[u8], word: &[u8]) -> bool
    ensures { result ≡ begins letters.now word.now }
{
    word.starts_with(letters)
}

pub fn begins_tree(second: bool, letters: &[u8]) -> bool
    ensures { result ≡ begins_tree second letters.now }
{
    begins(letters, b"absurd")
        || begins(letters, b"farkas")
        || begins(letters, b"case")
        || begins(letters, b"bool")
        || begins(letters, b"split")
        || begins(letters, b"cut")
        || (second && begins(letters, b"linear"))
}

/// Whether a word that may stand next goes on from these letters, or is them.
pub fn fits_word(scan: Scan, letters: &[u8]) -> bool
    ensures { result ≡ fits_word scan letters.now }
{
    match scan.want {
        Want::Block { header } => begins(letters, b"cert")
            || (header && begins(letters, b"version")),
        Want::Tree { end: _ } => begins_tree(scan.second, letters),
        _ => false,
    }
}

/// Whether digits may follow that make the number of `n`, or none are needed.
#[tactic(auto, unfolding(crate::specs::Control::begins_number))]
pub fn begins_number(number: u32, n: u64) -> bool
    ensures { result ≡ begins_number number n }
{
    let number = u64::from(number);
    n == 0
        || n == number
        || n == number / 10
        || n == number / 100
        || n == number / 1_000
        || n == number / 10_000
        || n == number / 100_000
        || n == number / 1_000_000
        || n == number / 10_000_000
        || n == number / 100_000_000
        || n == number / 1_000_000_000
}

/// Whether a number that may stand next goes on from the digits of `n`, or is `n`.
pub fn fits_number(scan: Scan, n: u64) -> bool
    ensures { result ≡ fits_number scan n }
{
    match scan.want {
        Want::HeaderNumber => n == 2,
        Want::BlockNumber => begins_number(scan.number, n),
        Want::Subject(_) => true,
        Want::Row {
            signed: _,
            count: _,
        } => true,
        Want::Multiplier {
            signed: _,
            count: _,
            row: _,
        } => true,
        Want::Negative { count: _, row: _ } => true,
        Want::Coefficient {
            first: _,
            negative: _,
            last: _,
        } => true,
        Want::Variable {
            negative: _,
            size: _,
            last: _,
        } => true,
        Want::Constant { negative: _ } => true,
        _ => false,
    }
}
