//! The first condition that isn't decided valid, where some are marked that are.

ghost use Rattle.std.specs.Prelude.{◌≡◌, ◌<◌, ◌≤◌, ◌^◌, IfOk, length};
ghost use Rattle.farkas_check.specs.PlainProblem.{setting};
ghost use Rattle.shared_search.specs.Books.{Knows};
ghost use Rattle.discharge.specs.Marked.{AreMarks, AreFindings, IsUndecidedAt, IsUndecidedBelow, IsFirstUndecided};
ghost use Rattle.search_laws.specs.Searchable.{AreSearchable};

use crate::marks::{Findings, Undecided};
use control_states::Components;
use linear_prover::{Book, unless_valid};
use st_form::{Condition, Variable};
use st_memory::Memory;
use std::alloc::Global;

/// The condition at a place with the verdict on it, unless it is marked, or searched and valid.
fn open_at(
    alloc: Global,
    book: &mut Book,
    components: &Components,
    variables: &[Variable],
    conditions: &[Condition],
    marks: &[bool],
    place: usize,
) -> Result<Option<Undecided>, Memory>
    requires few { length variables.now < 2 ^ 32 }
    requires searchable { AreSearchable (length variables.now) conditions.now }
    requires marks { AreMarks (setting components.now variables.now) conditions.now marks.now }
    requires place { place < length conditions.now }
    requires knows { Knows (setting components.now variables.now) book.old }
    ensures knows { Knows (setting components.now variables.now) book.new }
    ensures exact { IfOk result (λ o. IsUndecidedAt (setting components.now variables.now) conditions.now place o) }
{
    if marks[place] {
        return Ok(None);
    }
    match unless_valid(alloc, book, components, variables, &conditions[place])? {
        None => Ok(None),
        Some(verdict) => Ok(Some(Undecided { place, verdict })),
    }
}

/// The first condition before a place that isn't decided valid. Those that aren't marked are searched.
fn first_unmarked(
    alloc: Global,
    components: &Components,
    variables: &[Variable],
    conditions: &[Condition],
    marks: &[bool],
    end: usize,
) -> Result<Option<Undecided>, Memory>
    requires few { length variables.now < 2 ^ 32 }
    requires searchable { AreSearchable (length variables.now) conditions.now }
    requires marks { AreMarks (setting components.now variables.now) conditions.now marks.now }
    requires end { end ≤ length conditions.now }
    ensures { IfOk result (λ o. IsUndecidedBelow (setting components.now variables.now) conditions.now end o) }
{
    let mut book = Book::new(alloc, components, variables)?;
    for place in 0..end {
        if let Some(undecided) = open_at(
            alloc, &mut book, components, variables, conditions, marks, place,
        )? {
            return Ok(Some(undecided));
        }
    }
    Ok(None)
}

/// The first condition that isn't decided valid, with the verdict on it; `None` exactly where all are. What is neither marked nor
/// told is searched.
pub(crate) fn first_open(
    alloc: Global,
    components: &Components,
    variables: &[Variable],
    conditions: &[Condition],
    found: Findings,
) -> Result<Option<Undecided>, Memory>
    requires few { length variables.now < 2 ^ 32 }
    requires searchable { AreSearchable (length variables.now) conditions.now }
    requires found { AreFindings (setting components.now variables.now) conditions.now found }
    ensures { IfOk result (λ o. IsFirstUndecided (setting components.now variables.now) conditions.now o) }
{
    let end = match &found.undecided {
        None => conditions.len(),
        Some(undecided) => undecided.place,
    };
    match first_unmarked(alloc, components, variables, conditions, &found.valid, end)? {
        None => Ok(found.undecided),
        Some(undecided) => Ok(Some(undecided)),
    }
}
