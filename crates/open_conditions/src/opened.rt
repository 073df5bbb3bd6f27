//! The conditions are decided one after the other, with one book of what is known of their formulas, and those that aren't valid
//! are kept with the verdict on each.

ghost use Rattle.std.specs.Prelude.{◌≡◌, ◌<◌, ◌^◌, ◌++◌, IfOk, OnOk, length, map, slice_get};
ghost use Rattle.std.specs.Option.{option_map, option_to_list};
ghost use Rattle.farkas_check.specs.PlainProblem.{setting};
ghost use Rattle.shared_search.specs.Books.{Knows};
ghost use Rattle.search_laws.specs.Searchable.{AreSearchable};
ghost use Rattle.discharge.specs.Marked.{IsUndecidedAt, place_of};
ghost use Rattle.discharge.specs.Searched.{marks, first_false};
ghost use Rattle.open_conditions.specs.Open.{AreOpen, places_of_false};

use control_states::Components;
use discharge::Undecided;
use linear_prover::{Book, unless_valid};
use st_form::{Condition, Variable};
use st_memory::Memory;
use st_outside::Gate;
use std::alloc::Global;

/// The condition at a place with the verdict on it, unless it is decided valid.
fn open_at(
    alloc: Global,
    book: &mut Book,
    components: &Components,
    variables: &[Variable],
    conditions: &[Condition],
    place: usize,
) -> Result<Option<Undecided>, Memory>
    requires few { length variables.now < 2 ^ 32 }
    requires searchable { AreSearchable (length variables.now) conditions.now }
    requires place { place < length conditions.now }
    requires knows { Knows (setting components.now variables.now) book.old }
    ensures knows { Knows (setting components.now variables.now) book.new }
    ensures exact { IfOk result (λ o. IsUndecidedAt (setting components.now variables.now) conditions.now place o) }
{
    match unless_valid(alloc, book, components, variables, &conditions[place])? {
        None => Ok(None),
        Some(verdict) => Ok(Some(Undecided { place, verdict })),
    }
}

/// Keeps a condition that isn't decided valid.
fn keep(kept: &mut Vec<Undecided>, found: Option<Undecided>) -> Result<(), Memory>
    ensures { OnOk result (kept.new.items ≡ kept.old.items ++ option_to_list found) }
{
    if let Some(undecided) = found {
        kept.push(undecided)?;
    }
    Ok(())
}

/// All conditions that aren't decided valid, in their order, each by its place with the verdict on it. The gate is told of each condition.
///
/// There are fewer than 2^32 variables, and the conditions are as `obligations` makes them. Want of memory is the only other
/// answer.
pub fn open_conditions<G: Gate>(
    alloc: Global,
    gate: &G,
    components: &Components,
    variables: &[Variable],
    conditions: &[Condition],
) -> Result<Vec<Undecided>, Memory>
    requires few { length variables.now < 2 ^ 32 }
    requires searchable { AreSearchable (length variables.now) conditions.now }
    ensures all { IfOk result (λ v. map place_of v.items ≡ places_of_false 0 (marks (setting components.now variables.now) conditions.now)) }
    ensures right { IfOk result (λ v. AreOpen (setting components.now variables.now) conditions.now v.items) }
    ensures first { IfOk result (λ v. option_map place_of (slice_get v.items 0) ≡ first_false (marks (setting components.now variables.now) conditions.now)) }
{
    let mut kept = Vec::new(alloc);
    let mut book = Book::new(alloc, components, variables)?;
    gate.posed(conditions.len());
    for place in 0..conditions.len() {
        let found = open_at(alloc, &mut book, components, variables, conditions, place)?;
        gate.decided(1, found.is_some() as usize);
        keep(&mut kept, found)?;
    }
    Ok(kept)
}
