//! A token in front is read whole, where bytes stand behind it, and a pick with the sign behind it.

ghost use Rattle.std.specs.Prelude.{◌≡◌, ◌+◌, ◌<◌, ◌≤◌, ◌^◌, IfOk, length, drop, IsTrue};
ghost use Rattle.cert_text.specs.Reading.{progress_view, after, is_going};

use crate::fronts::{letter_len, number, takes_numbers};
use crate::letters::{is_digit, is_letter};
use crate::numbers::take_number;
use crate::pick_fronts::pick_in_front;
use crate::progress::{Pending, Progress, end_word, first_step};
use crate::scan::{MAX_PICKS, Want};
use crate::whole_picks::read_pick;
use crate::words::word_of;
use st_memory::Memory;
use std::alloc::Global;

/// Reads the byte in front, which begins a token.
fn read_first(
    progress: &mut Progress,
    alloc: Global,
    place: u64,
    bytes: &[u8],
) -> Result<usize, Memory>
    requires some { 0 < length bytes.now }
    requires room { place + length bytes.now < 2 ^ 64 }
    requires going { IsTrue (is_going (progress_view progress.old)) }
    requires idle { progress.old.pending ≡ Pending.Idle }
    ensures some { IfOk result (λ n. 0 < n) }
    ensures within { IfOk result (λ n. n ≤ length bytes.now) }
    ensures leads { IfOk result (λ n. after (place + n) (progress_view progress.new) (drop n bytes.now)
        ≡ after place (progress_view progress.old) bytes.now) }
{
    first_step(progress, alloc, place, bytes[0])?;
    Ok(1)
}

/// Reads the number in front, where it is whole, or the pick that it begins, else a byte.
fn read_number(
    progress: &mut Progress,
    alloc: Global,
    place: u64,
    bytes: &[u8],
) -> Result<usize, Memory>
    requires some { 0 < length bytes.now }
    requires room { place + length bytes.now < 2 ^ 64 }
    requires going { IsTrue (is_going (progress_view progress.old)) }
    requires idle { progress.old.pending ≡ Pending.Idle }
    ensures some { IfOk result (λ n. 0 < n) }
    ensures within { IfOk result (λ n. n ≤ length bytes.now) }
    ensures leads { IfOk result (λ n. after (place + n) (progress_view progress.new) (drop n bytes.now)
        ≡ after place (progress_view progress.old) bytes.now) }
{
    if let Want::Row { signed, count } = progress.scan.want {
        if count < MAX_PICKS {
            if let Some(pick) = pick_in_front(bytes, signed) {
                return read_pick(progress, alloc, bytes, signed, count, pick);
            }
        }
    }
    if takes_numbers(progress.scan.want) {
        let (value, digits) = number(bytes);
        if 0 < digits && digits < bytes.len() {
            take_number(progress, alloc, place, place + digits as u64, value)?;
            return Ok(digits);
        }
    }
    read_first(progress, alloc, place, bytes)
}

/// Reads the token in front, where it is whole, else its first byte. Answers how many bytes that is.
pub fn read_token(
    progress: &mut Progress,
    alloc: Global,
    place: u64,
    bytes: &[u8],
) -> Result<usize, Memory>
    requires some { 0 < length bytes.now }
    requires room { place + length bytes.now < 2 ^ 64 }
    requires going { IsTrue (is_going (progress_view progress.old)) }
    requires idle { progress.old.pending ≡ Pending.Idle }
    ensures some { IfOk result (λ n. 0 < n) }
    ensures within { IfOk result (λ n. n ≤ length bytes.now) }
    ensures leads { IfOk result (λ n. after (place + n) (progress_view progress.new) (drop n bytes.now)
        ≡ after place (progress_view progress.old) bytes.now) }
{
    let b = bytes[0];
    if is_letter(b) {
        let letters = letter_len(bytes);
        if 0 < letters && letters < bytes.len() {
            let word = word_of(&bytes[..letters]);
            end_word(progress, alloc, place, place + letters as u64, word)?;
            return Ok(letters);
        }
    } else if is_digit(b) {
        return read_number(progress, alloc, place, bytes);
    }
    read_first(progress, alloc, place, bytes)
}
