//! The elimination of a list's lines: first in few bits, then the whole.

ghost use Rattle.std.specs.Prelude.{◌≡◌, ◌^◌, IfOk, IfSome, IsTrue, map, true};
ghost use Rattle.st_linear.specs.Linear.{AllBelow, are_within};
ghost use Rattle.farkas_leaf.specs.Lent.{lent_line};
ghost use Rattle.elimination_laws.specs.Stages.{contradiction, ending};
ghost use Rattle.row_elimination.specs.Runs.{AllWithin};
ghost use Rattle.row_elimination.specs.Eliminations.{AreBelow};

use farkas_leaf::LentLine;
use lean_elimination::{copied, refute};
use row_elimination::{Elimination, eliminate};
use st_form::Lin;
use st_linear::Line;
use st_memory::Memory;
use std::alloc::Global;

fn entries_are_below(count: u32, entries: &[(u32, i128)]) -> bool
    ensures { result ≡ true → AllBelow count entries.now }
{
    for entry in entries {
        if entry.0 >= count {
            return false;
        }
    }
    true
}

/// Whether each variable of a form is below the count. That its numbers are small is known by its type.
fn is_below(count: u32, form: &Lin) -> bool
    ensures below { result ≡ true → AllBelow count form.now.entries }
    ensures within { IsTrue (are_within (2 ^ 100) form.now.entries) }
{
    entries_are_below(count, form.entries())
}

/// Whether each variable of lines is below the count.
fn are_below(count: u32, lines: &[Line]) -> bool
    ensures below { result ≡ true → AreBelow count lines.now }
    ensures within { result ≡ true → AllWithin lines.now }
{
    for line in lines {
        if !is_below(count, &line.form) {
            return false;
        }
    }
    true
}

/// The same by whole numbers, over lines of one's own.
fn refuted_whole(
    alloc: Global,
    lines: &[Line],
    variables: u32,
) -> Result<Option<Vec<(u32, i64)>>, Memory>
    ensures { IfOk result (λ o. IfSome o (λ picks. ending lines.now variables ≡ contradiction picks.items)) }
{
    if !are_below(variables, lines) {
        return Ok(None);
    }
    match eliminate(alloc, lines, variables)? {
        Elimination::Contradiction(picks) => Ok(Some(picks)),
        Elimination::NoContradiction(_) => Ok(None),
        Elimination::Wide(_) => Ok(None),
    }
}

/// The multiples of the contradiction that elimination ends with, where it is found.
pub fn refuted(
    alloc: Global,
    lines: &[LentLine],
    variables: u32,
) -> Result<Option<Vec<(u32, i64)>>, Memory>
    ensures { IfOk result (λ o. IfSome o (λ picks. ending (map lent_line lines.now) variables ≡ contradiction picks.items)) }
{
    if let Some(picks) = refute(alloc, lines, variables)? {
        return Ok(Some(picks));
    }
    refuted_whole(alloc, &copied(alloc, lines)?, variables)
}
