//! The pick in front of some bytes, as it mostly stands in a text: without blanks in it, and within the limits.

ghost use Rattle.std.specs.Prelude.{◌≡◌, ◌+◌, ◌<◌, ◌≤◌, ◌^◌, IfSome, length, slice_index};
ghost use Rattle.cert_text.specs.PickFronts.{IsPick};

use crate::fronts::number;
use crate::scan::{MAX_NUMBER, MULTIPLIER_END};

/// A row, a multiplier, and where in the bytes they stand.
#[derive(Clone, Copy)]
pub struct Pick {
    pub row: u32,
    pub negative: bool,
    pub size: u64,
    /// The place of the `*`.
    pub times: usize,
    /// Where the digits of the multiplier begin.
    pub from: usize,
    /// Where they end.
    pub end: usize,
}

/// The byte at a place, or 0.
fn byte_at(bytes: &[u8], place: usize) -> u8
    ensures { result ≡ slice_index bytes.now place }
{
    if place < bytes.len() { bytes[place] } else { 0 }
}

/// The pick in front, behind which the bytes go on.
pub fn pick_in_front(bytes: &[u8], signed: bool) -> Option<Pick>
    ensures { IfSome result (λ p. IsPick signed p bytes.now) }
{
    let (row, times) = number(bytes);
    if times == 0 || row == 0 || row > MAX_NUMBER || byte_at(bytes, times) != b'*' {
        return None;
    }
    let negative = signed && byte_at(bytes, times + 1) == b'-';
    let from = if negative { times + 2 } else { times + 1 };
    let (size, digits) = number(&bytes[from..]);
    let end = from + digits;
    if digits == 0 || size >= MULTIPLIER_END || end == bytes.len() {
        return None;
    }
    let row = row as u32;
    Some(Pick {
        row,
        negative,
        size,
        times,
        from,
        end,
    })
}
