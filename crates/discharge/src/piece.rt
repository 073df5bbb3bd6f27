//! The search of one worker, by a book of its own.

ghost use Rattle.std.specs.Prelude.{◌≡◌, ◌<◌, ◌≤◌, ◌^◌, IfOk, IfSome, IsTrue, length};
ghost use Rattle.farkas_check.specs.PlainProblem.{setting};
ghost use Rattle.shared_search.specs.Books.{Knows};
ghost use Rattle.discharge.specs.Marked.{AreMarks, AreFindings, IsUndecided};
ghost use Rattle.search_laws.specs.Searchable.{AreSearchable};

use crate::gates::at_gate;
use crate::marks::{Findings, Undecided};
use crate::queue::Queue;
use control_states::Components;
use linear_prover::{Book, unless_valid};
use st_form::{Condition, Variable};
use st_memory::Memory;
use st_outside::Gate;
use std::alloc::Global;

/// Marks the conditions from one place to before another, up to the first that isn't decided valid, which is told.
fn search_group(
    alloc: Global,
    book: &mut Book,
    components: &Components,
    variables: &[Variable],
    conditions: &[Condition],
    from: usize,
    to: usize,
    marks: &mut Vec<bool>,
) -> Result<Option<Undecided>, Memory>
    requires few { length variables.now < 2 ^ 32 }
    requires places { to ≤ length conditions.now }
    requires searchable { AreSearchable (length variables.now) conditions.now }
    requires knows { Knows (setting components.now variables.now) book.old }
    requires marks { AreMarks (setting components.now variables.now) conditions.now marks.old.items }
    ensures knows { Knows (setting components.now variables.now) book.new }
    ensures marks { AreMarks (setting components.now variables.now) conditions.now marks.new.items }
    ensures undecided { IfOk result (λ o. IfSome o (IsUndecided (setting components.now variables.now) conditions.now)) }
{
    for place in from..to {
        if let Some(verdict) = unless_valid(
            alloc,
            book,
            components,
            variables,
            &conditions[place],
        )? {
            return Ok(Some(Undecided { place, verdict }));
        }
        marks[place] = true;
    }
    Ok(None)
}

/// Tells the gate what came of a group: of one in which a condition is open, that this one is.
fn tell_group<G: Gate>(gate: &G, from: usize, to: usize, undecided: &Option<Undecided>) {
    match undecided {
        None => gate.decided(to.saturating_sub(from), 0),
        Some(_) => gate.decided(1, 1),
    }
}

/// Takes groups as long as there are some and all conditions in them are decided valid.
fn search_piece<G: Gate>(
    alloc: Global,
    gate: &G,
    components: &Components,
    variables: &[Variable],
    conditions: &[Condition],
    queue: &Queue,
) -> Result<Findings, Memory>
    requires few { length variables.now < 2 ^ 32 }
    requires searchable { AreSearchable (length variables.now) conditions.now }
    ensures { IfOk result (λ m. AreFindings (setting components.now variables.now) conditions.now m) }
{
    let count = conditions.len();
    let mut valid = vec![in alloc; false; count]?;
    let mut book = Book::new(alloc, components, variables)?;
    for _ in 0..count {
        let (from, to) = queue.take();
        if count <= from {
            break;
        }
        let undecided = search_group(
            alloc,
            &mut book,
            components,
            variables,
            conditions,
            from,
            to.min(count),
            &mut valid,
        )?;
        tell_group(gate, from, to.min(count), &undecided);
        if undecided.is_some() {
            queue.close(count);
            return Ok(Findings { valid, undecided });
        }
    }
    Ok(Findings {
        valid,
        undecided: None,
    })
}

/// The same, between the gate's begin and end of this piece.
pub(crate) fn search_at_gate<G: Gate>(
    alloc: Global,
    gate: &G,
    place: usize,
    components: &Components,
    variables: &[Variable],
    conditions: &[Condition],
    queue: &Queue,
) -> Result<Findings, Memory>
    requires few { length variables.now < 2 ^ 32 }
    requires searchable { AreSearchable (length variables.now) conditions.now }
    ensures marks { IfOk result (λ m. AreFindings (setting components.now variables.now) conditions.now m) }
    ensures ended { IsTrue (G.ended gate.now place) }
{
    at_gate(
        gate,
        place,
        || search_piece(alloc, gate, components, variables, conditions, queue),
    )
}
