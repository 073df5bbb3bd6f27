//! The words that begin trees, and the signs of nodes and picks, change the scan in place, as numbers do.

ghost use Rattle.std.specs.Prelude.{◌≡◌, ◌+◌, ◌<◌, ◌≤◌, ◌^◌, ◌-◌, OnOk, if◌then◌else◌};
ghost use Rattle.cert_text.specs.Control.{give, is_full};
ghost use Rattle.cert_text.specs.Tree.{built_view};
ghost use Rattle.cert_text.specs.Reading.{progress_view, token_taken, going, over, idle};

use crate::control::is_full;
use crate::numbers::{go_behind, go_on};
use crate::progress::{Progress, Stage, take_token};
use crate::scan::{Branching, MAX_DEPTH, Token, Want, Word};
use crate::tree::{Head, add_picks, add_tree, enter, leave};
use st_certificate::Certificate;
use st_memory::Memory;
use std::alloc::Global;

/// A tree begins with a word, if the limits allow one.
fn begin_tree(progress: &mut Progress, start: u64, want: Want)
    ensures { progress_view progress.new
        ≡ (if is_full progress.old.scan then over start
        else going (record progress.old.scan { want = want; trees = progress.old.scan.trees + 1 }) (built_view progress.old.building) idle) }
{
    if is_full(progress.scan) {
        progress.stage = Stage::Over(start);
    } else {
        progress.scan.trees += 1;
        go_on(progress, want);
    }
}

/// A word ends.
#[tactic(auto, using(crate::proofs::Taken::begun_taken, crate::proofs::Taken::behind_taken))]
pub fn take_word(
    progress: &mut Progress,
    alloc: Global,
    start: u64,
    end: u64,
    word: Word,
) -> Result<(), Memory>
    ensures { OnOk result (progress_view progress.new
        ≡ token_taken start end (give progress.old.scan (Token.Word word)) (built_view progress.old.building)) }
{
    let Want::Tree { end: _ } = progress.scan.want else {
        return take_token(progress, alloc, start, end, Token::Word(word));
    };
    match word {
        Word::Absurd => {
            if is_full(progress.scan) {
                progress.stage = Stage::Over(start);
            } else {
                add_tree(&mut progress.building, Certificate::Absurd)?;
                progress.scan.trees += 1;
                go_behind(progress);
            }
        }
        Word::Linear => {
            if progress.scan.second {
                begin_tree(progress, start, Want::Picks { signed: true });
            } else {
                progress.stage = Stage::Malformed(start);
            }
        }
        Word::Case => begin_tree(progress, start, Want::Subject(Branching::Case)),
        Word::Truth => begin_tree(progress, start, Want::Subject(Branching::Truth)),
        Word::Split => begin_tree(progress, start, Want::Subject(Branching::Split)),
        _ => return take_token(progress, alloc, start, end, Token::Word(word)),
    }
    Ok(())
}

/// A sign.
pub fn take_sign(progress: &mut Progress, alloc: Global, at: u64, b: u8) -> Result<(), Memory>
    requires room { at < 2 ^ 64 - 1 }
    ensures { OnOk result (progress_view progress.new
        ≡ token_taken at (at + 1) (give progress.old.scan (Token.Sign b)) (built_view progress.old.building)) }
{
    match progress.scan.want {
        Want::Picks { signed } => {
            if b == b'[' {
                go_on(progress, Want::Row { signed, count: 0 });
            } else {
                progress.stage = Stage::Malformed(at);
            }
            Ok(())
        }
        Want::Times { signed, count, row } => {
            if b == b'*' {
                go_on(progress, Want::Multiplier { signed, count, row });
            } else {
                progress.stage = Stage::Malformed(at);
            }
            Ok(())
        }
        Want::Multiplier { signed, count, row } => {
            if signed && b == b'-' {
                go_on(progress, Want::Negative { count, row });
            } else {
                progress.stage = Stage::Malformed(at);
            }
            Ok(())
        }
        _ => take_end(progress, alloc, at, b),
    }
}

/// A sign: where picks may end, or a node may begin or end, or another.
#[tactic(auto, using(crate::proofs::Taken::behind_taken))]
fn take_end(progress: &mut Progress, alloc: Global, at: u64, b: u8) -> Result<(), Memory>
    requires room { at < 2 ^ 64 - 1 }
    ensures { OnOk result (progress_view progress.new
        ≡ token_taken at (at + 1) (give progress.old.scan (Token.Sign b)) (built_view progress.old.building)) }
{
    match (progress.scan.want, b) {
        (Want::MorePicks { signed, count }, b',') => {
            go_on(progress, Want::Row { signed, count });
            Ok(())
        }
        (Want::MorePicks { signed, count: _ }, b']') => {
            add_picks(alloc, &mut progress.building, signed)?;
            go_behind(progress);
            Ok(())
        }
        (Want::Tree { end: true }, b'}') => {
            if progress.scan.depth > 0 {
                leave(alloc, &mut progress.building)?;
                progress.scan.depth -= 1;
                go_behind(progress);
            } else {
                progress.stage = Stage::Malformed(at);
            }
            Ok(())
        }
        (Want::Branches(branching, n), b'{') => {
            if progress.scan.depth < MAX_DEPTH {
                let head = Head::Node(branching, n.saturating_sub(1));
                enter(alloc, &mut progress.building, head)?;
                progress.scan.depth += 1;
                go_on(progress, Want::Tree { end: false });
            } else {
                progress.stage = Stage::Over(at);
            }
            Ok(())
        }
        _ => take_token(progress, alloc, at, at + 1, Token::Sign(b)),
    }
}
