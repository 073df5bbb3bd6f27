//! The first condition that isn't valid by the search. No certificate is kept.

ghost use Rattle.std.specs.Prelude.{◌≡◌, ◌<◌, ◌≤◌, ◌+◌, ◌-◌, ◌/◌, ◌^◌, IfOk, IsTrue, length};
ghost use Rattle.std.specs.Thread.{IsSync};
ghost use Rattle.farkas_check.specs.PlainProblem.{setting};
ghost use Rattle.discharge.specs.Marked.{AreFindings, IsFirstUndecided};
ghost use Rattle.discharge.specs.Pieces.{EachPiece};
ghost use Rattle.discharge.specs.Searched.{IsFirstOpen};
ghost use Rattle.search_laws.specs.Searchable.{AreSearchable};

use crate::marks::{Findings, Undecided, joined};
use crate::opened::first_open;
use crate::piece::search_at_gate;
use crate::queue::Queue;
use control_states::Components;
use st_form::{Condition, Variable};
use st_memory::Memory;
use st_outside::Gate;
use std::alloc::Global;
use std::thread::{Threads, join};

/// The pieces of a range: the number of the leftmost, how many workers there are, and for how many conditions.
#[derive(Clone, Copy)]
struct Range {
    first: usize,
    workers: u32,
    count: usize,
}

/// What the pieces of a range have found, all from one queue.
#[cycle(search_range)]
fn search_range<R: Threads + Sync, G: Gate + Sync>(
    rt: &R,
    alloc: Global,
    gate: &G,
    range: Range,
    components: &Components,
    variables: &[Variable],
    conditions: &[Condition],
    queue: &Queue,
) -> Result<Findings, Memory>
    requires pieces { range.first + range.workers < 2 ^ 32 }
    requires few { length variables.now < 2 ^ 32 }
    requires searchable { AreSearchable (length variables.now) conditions.now }
    ensures marks { IfOk result (λ m. AreFindings (setting components.now variables.now) conditions.now m) }
    ensures ended { EachPiece range.first range.workers range.count (G.ended gate.now) }
{
    if range.workers < 2 || range.count < 2 {
        return search_at_gate(
            alloc,
            gate,
            range.first,
            components,
            variables,
            conditions,
            queue,
        );
    }
    let (left, right) = search_both(
        rt, alloc, gate, range, components, variables, conditions, queue,
    );
    let left = left?;
    let right = right?;
    Ok(joined(left, right))
}

/// The same of both halves of a range, side by side.
#[cycle(search_range)]
fn search_both<R: Threads + Sync, G: Gate + Sync>(
    rt: &R,
    alloc: Global,
    gate: &G,
    range: Range,
    components: &Components,
    variables: &[Variable],
    conditions: &[Condition],
    queue: &Queue,
) -> (Result<Findings, Memory>, Result<Findings, Memory>)
    requires some { 2 ≤ range.workers }
    requires pieces { range.first + range.workers < 2 ^ 32 }
    requires few { length variables.now < 2 ^ 32 }
    requires searchable { AreSearchable (length variables.now) conditions.now }
    ensures left { IfOk result.0 (λ m. AreFindings (setting components.now variables.now) conditions.now m) }
    ensures right { IfOk result.1 (λ m. AreFindings (setting components.now variables.now) conditions.now m) }
    ensures left_ended { EachPiece range.first (range.workers / 2) (range.count / 2) (G.ended gate.now) }
    ensures right_ended { EachPiece (range.first + range.workers / 2) (range.workers - range.workers / 2) (range.count - range.count / 2) (G.ended gate.now) }
{
    let half = range.workers / 2;
    let left = Range {
        first: range.first,
        workers: half,
        count: range.count / 2,
    };
    let right = Range {
        first: range.first + half as usize,
        workers: range.workers - half,
        count: range.count - range.count / 2,
    };
    join(
        rt,
        || -> Result<Findings, Memory>
            requires { IsSync R.row × IsSync G.row × (left.first + left.workers < 2 ^ 32) × (length variables.now < 2 ^ 32) × AreSearchable (length variables.now) conditions.now }
            ensures marks { IfOk result (λ m. AreFindings (setting components.entry.now variables.entry.now) conditions.entry.now m) }
            ensures ended { EachPiece left.first left.workers left.count (G.ended gate.entry.now) }
        {
            search_range(
                rt, alloc, gate, left, components, variables, conditions, queue,
            )
        },
        || -> Result<Findings, Memory>
            requires { IsSync R.row × IsSync G.row × (right.first + right.workers < 2 ^ 32) × (length variables.now < 2 ^ 32) × AreSearchable (length variables.now) conditions.now }
            ensures marks { IfOk result (λ m. AreFindings (setting components.entry.now variables.entry.now) conditions.entry.now m) }
            ensures ended { EachPiece right.first right.workers right.count (G.ended gate.entry.now) }
        {
            search_range(
                rt, alloc, gate, right, components, variables, conditions, queue,
            )
        },
    )
}

/// The first condition that isn't decided valid, with the verdict on it; `None` exactly where all are. Each piece of the work
/// stands between the gate's `begin` and `end` of its number.
pub fn first_undecided<R: Threads + Sync, G: Gate + Sync>(
    rt: &R,
    alloc: Global,
    gate: &G,
    workers: u32,
    components: &Components,
    variables: &[Variable],
    conditions: &[Condition],
) -> Result<Option<Undecided>, Memory>
    requires workers { 0 < workers }
    requires few { length variables.now < 2 ^ 32 }
    requires searchable { AreSearchable (length variables.now) conditions.now }
    ensures first { IfOk result (λ o. IsFirstUndecided (setting components.now variables.now) conditions.now o) }
    ensures ended { EachPiece 0 workers (length conditions.now) (G.ended gate.now) }
{
    let queue = Queue::new(conditions.len(), workers);
    let range = Range {
        first: 0,
        workers,
        count: conditions.len(),
    };
    let found = search_range(
        rt, alloc, gate, range, components, variables, conditions, &queue,
    )?;
    first_open(alloc, components, variables, conditions, found)
}

/// The place of the first condition that isn't decided valid; `None` exactly where all are.
pub fn verify_all<R: Threads + Sync, G: Gate + Sync>(
    rt: &R,
    alloc: Global,
    gate: &G,
    workers: u32,
    components: &Components,
    variables: &[Variable],
    conditions: &[Condition],
) -> Result<Option<usize>, Memory>
    requires workers { 0 < workers }
    requires few { length variables.now < 2 ^ 32 }
    requires searchable { AreSearchable (length variables.now) conditions.now }
    ensures first_open { IfOk result (λ o. IsFirstOpen (setting components.now variables.now) conditions.now o) }
    ensures ended { EachPiece 0 workers (length conditions.now) (G.ended gate.now) }
{
    match first_undecided(rt, alloc, gate, workers, components, variables, conditions)? {
        None => Ok(None),
        Some(undecided) => Ok(Some(undecided.place)),
    }
}
