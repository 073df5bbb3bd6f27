//! Bytes of certificate texts.

ghost use Rattle.std.specs.Prelude.{◌≡◌, ◌+◌, ◌-◌, ◌<◌, ◌≤◌, ◌^◌, ◌++◌, ◌∷◌, [], List, ℕ, length, take, IsTrue};
ghost use Rattle.cert_text.specs.Letters.{is_blank, is_letter, is_digit, grown};

use std::marker::Model;

pub fn is_blank(b: u8) -> bool
    ensures { result ≡ is_blank b }
{
    b == b' ' || b == b'\t' || b == b'\r' || b == b'\n'
}

pub fn is_letter(b: u8) -> bool
    ensures { result ≡ is_letter b }
{
    b'a' <= b && b <= b'z'
}

pub fn is_digit(b: u8) -> bool
    ensures { result ≡ is_digit b }
{
    b'0' <= b && b <= b'9'
}

/// The number with a digit more. Past 2^64 - 1 it stands still.
#[tactic(auto, unfolding(crate::specs::Letters::grown))]
pub fn grown(n: u64, digit: u8) -> u64
    requires { IsTrue (is_digit digit) }
    ensures { result ≡ grown n digit }
{
    n.saturating_mul(10).saturating_add(u64::from(digit - b'0'))
}

/// The letters of a word so far, at most eight.
#[derive(Drop)]
pub struct Letters {
    text: [u8; 8],
    len: usize,
}

impl Model for Letters {
    ghost Value = { List ℕ };

    ghost view = { λ a. take a.len a.text };

    ghost invariant = { λ a. a.len ≤ 8 };
}

impl Letters {
    pub fn new() -> Letters
        ensures { result ≡ [] }
    {
        Letters {
            text: [0; 8],
            len: 0,
        }
    }

    pub fn len(&self) -> usize
        ensures { result ≡ length self.now }
    {
        self.len
    }

    pub fn push(&mut self, b: u8)
        requires { length self.old < 8 }
        ensures { self.new ≡ self.old ++ b ∷ [] }
    {
        self.text[self.len] = b;
        self.len += 1;
    }

    pub fn as_slice(&self) -> &[u8]
        ensures { result.now ≡ self.now }
    {
        &self.text[..self.len]
    }
}
