//! A block is read a byte at a time, wherever the bytes are cut: the machine that says what a text is.

ghost use Rattle.std.specs.Prelude.{◌≡◌, ◌+◌, ◌-◌, ◌<◌, ◌≤◌, ◌^◌, ◌++◌, ◌∷◌, [], OnOk, length, IsTrue, nat_lt};
ghost use Rattle.cert_text.specs.Control.{give, fits_word, fits_number, word_of};
ghost use Rattle.cert_text.specs.Tree.{built_view, nothing_built};
ghost use Rattle.cert_text.specs.Letters.{is_blank, is_letter, is_digit, grown};
ghost use Rattle.cert_text.specs.Reading.{progress_view, token_taken, is_whole, stage_of, word_ended, begun, and_begun, word_grown, number_grown, step, is_going};

use crate::control::give;
use crate::letters::{Letters, grown, is_blank, is_digit, is_letter};
use crate::numbers::take_number;
use crate::scan::{Given, Scan, Token, Want, Word};
use crate::tree::{Building, apply};
use crate::trees::{take_sign, take_word};
use crate::words::{fits_number, fits_word, word_of};
use st_memory::Memory;
use std::alloc::Global;

/// A token of which more may come, and its place.
#[derive(Clone, Copy)]
pub enum Pending {
    Idle,
    Word(u64),
    Number(u64, u64),
}

#[derive(Clone, Copy)]
pub enum Stage {
    Going,
    Malformed(u64),
    Over(u64),
    /// The block is whole, and ends before this place.
    Whole(u64),
}

#[derive(Drop)]
pub struct Progress {
    pub stage: Stage,
    pub scan: Scan,
    pub pending: Pending,
    pub letters: Letters,
    pub building: Building,
}

fn is_whole(want: Want) -> bool
    ensures { result ≡ is_whole want }
{
    match want {
        Want::Whole => true,
        _ => false,
    }
}

pub fn is_going(progress: &Progress) -> bool
    ensures { result ≡ is_going (progress_view progress.now) }
{
    match progress.stage {
        Stage::Going => true,
        Stage::Malformed(_) => false,
        Stage::Over(_) => false,
        Stage::Whole(_) => false,
    }
}

fn stage_of(want: Want, end: u64) -> Stage
    ensures { result ≡ stage_of want end }
{
    if is_whole(want) {
        Stage::Whole(end)
    } else {
        Stage::Going
    }
}

/// A token ends.
pub fn take_token(
    progress: &mut Progress,
    alloc: Global,
    start: u64,
    end: u64,
    token: Token,
) -> Result<(), Memory>
    ensures { OnOk result (progress_view progress.new
        ≡ token_taken start end (give progress.old.scan token) (built_view progress.old.building)) }
{
    match give(progress.scan, token) {
        Given::On(scan, action) => {
            apply(alloc, &mut progress.building, action)?;
            progress.scan = scan;
            progress.pending = Pending::Idle;
            progress.stage = stage_of(scan.want, end);
            Ok(())
        }
        Given::Wrong => {
            progress.stage = Stage::Malformed(start);
            Ok(())
        }
        Given::Over => {
            progress.stage = Stage::Over(start);
            Ok(())
        }
    }
}

/// A word ends.
pub fn end_word(
    progress: &mut Progress,
    alloc: Global,
    start: u64,
    end: u64,
    word: Option<Word>,
) -> Result<(), Memory>
    ensures { OnOk result (progress_view progress.new
        ≡ word_ended start end progress.old.scan (built_view progress.old.building) word) }
{
    match word {
        Some(word) => take_word(progress, alloc, start, end, word),
        None => {
            progress.stage = Stage::Malformed(start);
            Ok(())
        }
    }
}

/// A token begins, or a blank stands here.
fn begin(progress: &mut Progress, alloc: Global, at: u64, b: u8) -> Result<(), Memory>
    requires room { at < 2 ^ 64 - 1 }
    ensures { OnOk result (progress_view progress.new
        ≡ begun at b progress.old.scan (built_view progress.old.building)) }
{
    if is_blank(b) {
        progress.stage = Stage::Going;
        progress.pending = Pending::Idle;
        Ok(())
    } else if is_letter(b) {
        begin_word(progress, at, b);
        Ok(())
    } else if is_digit(b) {
        begin_number(progress, at, b);
        Ok(())
    } else {
        take_sign(progress, alloc, at, b)
    }
}

fn begin_word(progress: &mut Progress, at: u64, b: u8)
    ensures { progress_view progress.new ≡ word_grown at progress.old.scan (built_view progress.old.building) [] b }
{
    progress.letters = Letters::new();
    grow_word(progress, at, b)
}

/// A letter more of a word.
fn grow_word(progress: &mut Progress, start: u64, b: u8)
    ensures { progress_view progress.new
        ≡ word_grown start progress.old.scan (built_view progress.old.building) progress.old.letters b }
{
    if progress.letters.len() < 8 {
        progress.letters.push(b);
        if fits_word(progress.scan, progress.letters.as_slice()) {
            progress.stage = Stage::Going;
            progress.pending = Pending::Word(start);
        } else {
            progress.stage = Stage::Malformed(start);
        }
    } else {
        progress.stage = Stage::Malformed(start);
    }
}

fn begin_number(progress: &mut Progress, at: u64, b: u8)
    requires { IsTrue (is_digit b) }
    ensures { progress_view progress.new ≡ number_grown at progress.old.scan (built_view progress.old.building) 0 b }
{
    grow_number(progress, at, 0, b)
}

/// A digit more of a number.
fn grow_number(progress: &mut Progress, start: u64, n: u64, b: u8)
    requires { IsTrue (is_digit b) }
    ensures { progress_view progress.new ≡ number_grown start progress.old.scan (built_view progress.old.building) n b }
{
    let more = grown(n, b);
    if fits_number(progress.scan, more) {
        progress.stage = Stage::Going;
        progress.pending = Pending::Number(start, more);
    } else {
        progress.stage = Stage::Malformed(start);
    }
}

/// A token begins, unless there was a refusal.
fn and_begin(progress: &mut Progress, alloc: Global, at: u64, b: u8) -> Result<(), Memory>
    requires room { at < 2 ^ 64 - 1 }
    ensures { OnOk result (progress_view progress.new ≡ and_begun at b (progress_view progress.old)) }
{
    match progress.stage {
        Stage::Going => begin(progress, alloc, at, b),
        Stage::Malformed(_) => Ok(()),
        Stage::Over(_) => Ok(()),
        Stage::Whole(_) => Ok(()),
    }
}

/// A byte more, where no token is open. Where memory runs out, the progress is worthless.
#[tactic(auto, unfolding(crate::specs::Reading::step))]
pub fn first_step(progress: &mut Progress, alloc: Global, at: u64, b: u8) -> Result<(), Memory>
    requires room { at < 2 ^ 64 - 1 }
    requires is_going { IsTrue (is_going (progress_view progress.old)) }
    requires idle { progress.old.pending ≡ Pending.Idle }
    ensures { OnOk result (progress_view progress.new ≡ step at (progress_view progress.old) b) }
{
    begin(progress, alloc, at, b)
}

/// A byte more. Where memory runs out, the progress is worthless.
#[tactic(auto, unfolding(crate::specs::Reading::step))]
pub fn step(progress: &mut Progress, alloc: Global, at: u64, b: u8) -> Result<(), Memory>
    requires room { at < 2 ^ 64 - 1 }
    requires is_going { IsTrue (is_going (progress_view progress.old)) }
    ensures { OnOk result (progress_view progress.new ≡ step at (progress_view progress.old) b) }
{
    match progress.pending {
        Pending::Idle => begin(progress, alloc, at, b),
        Pending::Word(start) => {
            if is_letter(b) {
                grow_word(progress, start, b);
                Ok(())
            } else {
                let word = word_of(progress.letters.as_slice());
                end_word(progress, alloc, start, at, word)?;
                and_begin(progress, alloc, at, b)
            }
        }
        Pending::Number(start, n) => {
            if is_digit(b) {
                grow_number(progress, start, n, b);
                Ok(())
            } else {
                take_number(progress, alloc, start, at, n)?;
                and_begin(progress, alloc, at, b)
            }
        }
    }
}
