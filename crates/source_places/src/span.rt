//! A stretch of a text.

ghost use Rattle.std.specs.Prelude.{◌≡◌, ◌≤◌, ◌&&◌, nat_le, nat_lt};

use st_tokens::Token;

/// From a byte to before another; byte offsets from 0.
#[derive(Clone, Copy, Debug, PartialEq, Eq)]
pub struct Span {
    pub from: u64,
    pub to: u64,
}

impl Span {
    /// The stretch of a token.
    pub fn of(token: &Token) -> Span
        ensures { result.from ≡ token.now.start }
    {
        Span {
            from: token.start,
            to: token.start.saturating_add(token.text.len() as u64),
        }
    }

    /// From the begin of one stretch to the end of another, or the first alone where the other ends before it.
    pub fn to(self, last: Span) -> Span
        ensures from { result.from ≡ self.from }
        ensures to { self.to ≤ result.to }
    {
        Span {
            from: self.from,
            to: self.to.max(last.to),
        }
    }

    /// The same stretch of a text in which so many bytes more stand before it.
    pub fn behind(self, bytes: u64) -> Span {
        Span {
            from: self.from.saturating_add(bytes),
            to: self.to.saturating_add(bytes),
        }
    }

    /// Whether a byte stands in it.
    pub fn has(self, place: u64) -> bool
        ensures { result ≡ (nat_le self.from place && nat_lt place self.to) }
    {
        self.from <= place && place < self.to
    }
}
