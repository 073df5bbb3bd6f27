//! A piece is read by whole tokens: blanks, and a word or a number behind which the piece goes on, are one step each. A token
//! of which more may come in the next piece is read a byte at a time.

ghost use Rattle.std.specs.Prelude.{◌≡◌, ◌+◌, ◌<◌, ◌≤◌, ◌^◌, OnOk, IfOk, length, drop, IsTrue};
ghost use Rattle.cert_text.specs.Reading.{progress_view, after, is_going};

use crate::blank::blank_len;
use crate::progress::{Pending, Progress, is_going, step};
use crate::whole_tokens::read_token;
use st_memory::Memory;
use std::alloc::Global;

/// Reads the byte in front, and answers how many bytes that is.
fn read_byte(
    progress: &mut Progress,
    alloc: Global,
    place: u64,
    bytes: &[u8],
) -> Result<usize, Memory>
    requires some { 0 < length bytes.now }
    requires room { place + length bytes.now < 2 ^ 64 }
    requires going { IsTrue (is_going (progress_view progress.old)) }
    ensures some { IfOk result (λ n. 0 < n) }
    ensures within { IfOk result (λ n. n ≤ length bytes.now) }
    ensures leads { IfOk result (λ n. after (place + n) (progress_view progress.new) (drop n bytes.now)
        ≡ after place (progress_view progress.old) bytes.now) }
{
    step(progress, alloc, place, bytes[0])?;
    Ok(1)
}

/// Reads blanks and the token behind them.
fn read_on(
    progress: &mut Progress,
    alloc: Global,
    place: u64,
    bytes: &[u8],
) -> Result<usize, Memory>
    requires some { 0 < length bytes.now }
    requires room { place + length bytes.now < 2 ^ 64 }
    requires going { IsTrue (is_going (progress_view progress.old)) }
    requires idle { progress.old.pending ≡ Pending.Idle }
    ensures some { IfOk result (λ n. 0 < n) }
    ensures within { IfOk result (λ n. n ≤ length bytes.now) }
    ensures leads { IfOk result (λ n. after (place + n) (progress_view progress.new) (drop n bytes.now)
        ≡ after place (progress_view progress.old) bytes.now) }
{
    let blanks = blank_len(bytes);
    if blanks == bytes.len() {
        return Ok(blanks);
    }
    let token = read_token(progress, alloc, place + blanks as u64, &bytes[blanks..])?;
    Ok(blanks + token)
}

/// Reads on by a token or a byte, and answers how many bytes that is.
fn advance(
    progress: &mut Progress,
    alloc: Global,
    place: u64,
    bytes: &[u8],
) -> Result<usize, Memory>
    requires some { 0 < length bytes.now }
    requires room { place + length bytes.now < 2 ^ 64 }
    requires going { IsTrue (is_going (progress_view progress.old)) }
    ensures some { IfOk result (λ n. 0 < n) }
    ensures within { IfOk result (λ n. n ≤ length bytes.now) }
    ensures leads { IfOk result (λ n. after (place + n) (progress_view progress.new) (drop n bytes.now)
        ≡ after place (progress_view progress.old) bytes.now) }
{
    match progress.pending {
        Pending::Idle => read_on(progress, alloc, place, bytes),
        Pending::Word(_) => read_byte(progress, alloc, place, bytes),
        Pending::Number(_, _) => read_byte(progress, alloc, place, bytes),
    }
}

/// The bytes from a place on, as far as the block goes. Where memory runs out, the progress is worthless.
pub fn run(progress: &mut Progress, alloc: Global, place: u64, bytes: &[u8]) -> Result<(), Memory>
    requires { place + length bytes.now < 2 ^ 64 }
    ensures { OnOk result (progress_view progress.new ≡ after place (progress_view progress.old) bytes.now) }
{
    let mut read = 0;
    while read < bytes.len() {
        if !is_going(progress) {
            return Ok(());
        }
        read += advance(progress, alloc, place + read as u64, &bytes[read..])?;
    }
    Ok(())
}
