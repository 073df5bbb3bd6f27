//! All stages.

ghost use Rattle.std.specs.Prelude.{◌≡◌, ◌^◌, ◌+◌, ◌≤◌, ℕ, ℤ, List, IfOk, IfSome, IsTrue, Some, None, [], map, length};
ghost use Rattle.st_linear.specs.Linear.{is_within, are_within};
ghost use Rattle.farkas_leaf.specs.Lent.{lent_line};
ghost use Rattle.elimination_laws.specs.Stages.{clashes, contradiction, ending, judged, stages, tracked, turned, Ending};
ghost use Rattle.row_elimination.specs.Places.{sift_from};
ghost use Rattle.elimination_laws.specs.Mixing.{Tracked};
ghost use Rattle.row_elimination.specs.Runs.{first_row};
ghost use Rattle.lean_elimination.specs.Arenas.{tracks, tracked_row, row_at, listed, AllUnder};
ghost use Rattle.lean_elimination.specs.Placings.{Ends, EndsBy, GivesList, AllStay};

use crate::adding::add;
use crate::arena::Arena;
use crate::multiples::multiples;
use crate::placing::place;
use crate::row::{Entries, Origin, Row};
use crate::stage::{are_free, run_stage};
use crate::stop::{Refusal, Stop};
use farkas_leaf::LentLine;
use smallvec::SmallVec;
use st_memory::Memory;
use std::alloc::Global;

const MOST_LINES: usize = 4096;

const ENTRY_LIMIT: u128 = 1 << 62;

/// A number that this way is for.
#[tactic(auto, unfolding(st_linear::specs::Linear::is_within))]
fn narrow(x: &i128) -> Result<i64, Refusal>
    ensures value { IfOk result (λ z. z ≡ x.now) }
    ensures within { IfOk result (λ z. IsTrue (is_within (2 ^ 62) z)) }
{
    if x.unsigned_abs() < ENTRY_LIMIT {
        Ok(*x as i64)
    } else {
        Err(Refusal::Unfit)
    }
}

fn narrow_entries(alloc: Global, entries: &[(u32, i128)]) -> Result<Entries, Refusal>
    ensures value { IfOk result (λ v. v.items ≡ entries.now) }
    ensures within { IfOk result (λ v. IsTrue (are_within (2 ^ 62) v.items)) }
{
    let mut out = SmallVec::new(alloc);
    for e in entries {
        let coefficient = narrow(&e.1)?;
        out.push((e.0, coefficient))?;
    }
    Ok(out)
}

/// An input line, as one times itself.
fn first(alloc: Global, number: u32, line: LentLine) -> Result<Row, Refusal>
    ensures value { IfOk result (λ r. (ts : List Tracked) → tracked_row ts r ≡ first_row number (lent_line line.entry)) }
    ensures bounded { IfOk result (λ r. (ts : List Tracked) → IsTrue (are_within (r.bound + 1) (tracked_row ts r).picks)) }
{
    Ok(Row {
        equal: line.equal,
        constant: narrow(&line.form.constant())?,
        entries: narrow_entries(alloc, line.form.entries())?,
        origin: Origin::Input(number),
        bound: 1,
    })
}

/// The input's lines without the constant ones.
fn first_rows(alloc: Global, arena: &mut Arena, lines: &[LentLine]) -> Result<Vec<usize>, Stop>
    requires { length lines.now ≤ 4096 }
    ensures { GivesList result arena.old.rows.items arena.new.rows.items (sift_from [] (map Some (tracked 0 (map lent_line lines.now)))) }
{
    let mut next = Vec::with_capacity(alloc, lines.len())?;
    for i in 0..lines.len() {
        let row = first(alloc, i as u32, lines[i])?;
        let made = add(arena, row)?;
        place(arena, &mut next, made)?;
    }
    Ok(next)
}

/// The stages of all variables. A variable that no line has is passed by: its stage changes nothing.
fn all_stages(
    alloc: Global,
    variables: u32,
    arena: &mut Arena,
    list: Vec<usize>,
) -> Result<(), Stop>
    requires under { AllUnder (length arena.old.rows.items) list.items }
    requires stay { AllStay (listed (tracks arena.old.rows.items) list.items) }
    requires few { length list.items ≤ 4096 }
    ensures { Ends result (tracks arena.new.rows.items) (stages variables 0 (listed (tracks arena.old.rows.items) list.items)) }
{
    let mut current = list;
    for v in 0..variables {
        if !are_free(v, arena, &current) {
            current = run_stage(alloc, v, arena, current)?;
        }
    }
    drop(current);
    Ok(())
}

/// All stages over the input's lines.
fn run(alloc: Global, arena: &mut Arena, lines: &[LentLine], variables: u32) -> Result<(), Stop>
    ensures { Ends result (tracks arena.new.rows.items) (ending (map lent_line lines.now) variables) }
{
    if lines.len() > MOST_LINES {
        return Err(Stop::Unfit);
    }
    let first = first_rows(alloc, arena, lines)?;
    all_stages(alloc, variables, arena, first)
}

/// The multiples of a row that clashes, with the other sign where its constant is positive.
fn answer(alloc: Global, arena: &Arena, k: usize) -> Result<Vec<(u32, i64)>, Refusal>
    ensures { IfOk result (λ v. (ps : List (ℕ × ℤ)) → judged (row_at (tracks arena.now.rows.items) k) ≡ clashes ps → v.items ≡ ps) }
{
    if k >= arena.rows.len() {
        return Err(Refusal::Unfit);
    }
    let picks = multiples(alloc, arena, k)?;
    if arena.rows[k].constant > 0 {
        turned_copy(alloc, picks.as_slice())
    } else {
        copy(alloc, picks.as_slice())
    }
}

fn copy(alloc: Global, picks: &[(u32, i64)]) -> Result<Vec<(u32, i64)>, Refusal>
    ensures { IfOk result (λ v. v.items ≡ picks.now) }
{
    let mut out = Vec::with_capacity(alloc, picks.len())?;
    for p in picks {
        out.push(*p)?;
    }
    Ok(out)
}

/// The multiples, each with the other sign.
fn turned_copy(alloc: Global, picks: &[(u32, i64)]) -> Result<Vec<(u32, i64)>, Refusal>
    ensures { IfOk result (λ v. v.items ≡ turned picks.now) }
{
    let mut out = Vec::with_capacity(alloc, picks.len())?;
    for p in picks {
        match p.1.checked_neg() {
            Some(turned) => out.push((p.0, turned))?,
            None => return Err(Refusal::Unfit),
        }
    }
    Ok(out)
}

/// The answer: only a clash is one.
fn answered(alloc: Global, arena: &Arena, stop: Stop) -> Result<Option<Vec<(u32, i64)>>, Memory>
    ensures { (e : Ending) → EndsBy (tracks arena.now.rows.items) stop e → IfOk result (λ o. IfSome o (λ v. e ≡ contradiction v.items)) }
{
    match stop {
        Stop::Clash(k) => match answer(alloc, arena, k) {
            Ok(picks) => Ok(Some(picks)),
            Err(Refusal::Memory) => Err(Memory),
            Err(Refusal::Unfit) => Ok(None),
        },
        Stop::Memory => Err(Memory),
        Stop::Unfit => Ok(None),
    }
}

/// The multiples of the contradiction that elimination ends with, where it does so in small numbers. With `None` nothing is said:
/// there may be a contradiction, or none.
pub fn refute(
    alloc: Global,
    lines: &[LentLine],
    variables: u32,
) -> Result<Option<Vec<(u32, i64)>>, Memory>
    ensures { IfOk result (λ o. IfSome o (λ picks. ending (map lent_line lines.now) variables ≡ contradiction picks.items)) }
{
    let mut arena = Arena {
        rows: Vec::with_capacity(alloc, lines.len().saturating_mul(2))?,
    };
    match run(alloc, &mut arena, lines, variables) {
        Ok(_) => Ok(None),
        Err(stop) => answered(alloc, &arena, stop),
    }
}
