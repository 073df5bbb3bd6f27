//! Of the conditions that aren't decided valid, those are left out of which the second search finds a certificate. One whose verdict shows
//! a state has none, since it is false there; so the search is asked of the others alone.

ghost use Rattle.std.specs.Prelude.{◌≡◌, ◌<◌, ◌^◌, ◌∷◌, ◌++◌, [], true, if◌then◌else◌, IfOk, OnOk, length, map};
ghost use Rattle.farkas_check.specs.PlainProblem.{setting};
ghost use Rattle.search_laws.specs.Searchable.{AreSearchable};
ghost use Rattle.discharge.specs.Marked.{place_of};
ghost use Rattle.discharge.specs.Searched.{marks};
ghost use Rattle.open_conditions.specs.Open.{AreOpen, places_of_false};
ghost use Rattle.unclosed_conditions.specs.Unclosed.{IsClosed, LeavesOut};

use control_states::Components;
use discharge::{Undecided, Verdict};
use eager_search::find;
use open_conditions::open_conditions;
use st_form::{Condition, Variable};
use st_memory::Memory;
use st_outside::Gate;
use std::alloc::Global;

/// The second search looks at so many problems of a condition at most, as it does where it is asked for the answer.
const MOST_PROBLEMS: u32 = 50_000;

/// Whether a verdict shows a state in which the condition is false.
fn is_refuted(verdict: &Verdict) -> bool {
    match verdict {
        Verdict::Valid(_) => false,
        Verdict::Open(_, shown) => shown.is_some(),
        Verdict::Wide(_, _) => false,
    }
}

/// Whether the second search finds a certificate of the condition at a place.
fn is_found(
    alloc: Global,
    components: &Components,
    variables: &[Variable],
    conditions: &[Condition],
    place: usize,
) -> Result<bool, Memory>
    requires searchable { AreSearchable (length variables.now) conditions.now }
    requires place { place < length conditions.now }
    ensures { IfOk result (λ b. b ≡ true → IsClosed (setting components.now variables.now) conditions.now place) }
{
    let found = find(
        alloc,
        components,
        variables,
        &conditions[place],
        MOST_PROBLEMS,
    )?;
    Ok(found.is_some())
}

/// The same of a condition that isn't decided valid.
fn is_closed(
    alloc: Global,
    components: &Components,
    variables: &[Variable],
    conditions: &[Condition],
    undecided: &Undecided,
) -> Result<bool, Memory>
    requires { AreSearchable (length variables.now) conditions.now }
    ensures { IfOk result (λ closed. closed ≡ true → IsClosed (setting components.now variables.now) conditions.now (place_of undecided.now)) }
{
    let place = undecided.place;
    if place >= conditions.len() || is_refuted(&undecided.verdict) {
        return Ok(false);
    }
    is_found(alloc, components, variables, conditions, place)
}

/// Keeps a condition unless it is closed.
fn keep(kept: &mut Vec<Undecided>, undecided: Undecided, closed: bool) -> Result<(), Memory>
    ensures { OnOk result (kept.new.items ≡ (if closed then kept.old.items else kept.old.items ++ undecided ∷ [])) }
{
    if !closed {
        kept.push(undecided)?;
    }
    Ok(())
}

/// Those of some conditions of which the second search finds no certificate.
fn unclosed(
    alloc: Global,
    components: &Components,
    variables: &[Variable],
    conditions: &[Condition],
    found: Vec<Undecided>,
) -> Result<Vec<Undecided>, Memory>
    requires searchable { AreSearchable (length variables.now) conditions.now }
    requires right { AreOpen (setting components.now variables.now) conditions.now found.items }
    ensures left { IfOk result (λ v. LeavesOut (setting components.now variables.now) conditions.now (map place_of found.items) (map place_of v.items)) }
    ensures right { IfOk result (λ v. AreOpen (setting components.now variables.now) conditions.now v.items) }
{
    let mut kept = Vec::new(alloc);
    for undecided in found {
        let closed = is_closed(alloc, components, variables, conditions, &undecided)?;
        keep(&mut kept, undecided, closed)?;
    }
    Ok(kept)
}

/// All conditions that neither search closes, in their order, each by its place with the verdict of the first search on it. The gate is
/// told of each condition that the first search decides.
///
/// There are fewer than 2^32 variables, and the conditions are as `obligations` makes them. Want of memory is the only other answer.
pub fn unclosed_conditions<G: Gate>(
    alloc: Global,
    gate: &G,
    components: &Components,
    variables: &[Variable],
    conditions: &[Condition],
) -> Result<Vec<Undecided>, Memory>
    requires few { length variables.now < 2 ^ 32 }
    requires searchable { AreSearchable (length variables.now) conditions.now }
    // They are those that aren't decided valid, without some that have a valid certificate.
    ensures left { IfOk result (λ v.
        LeavesOut (setting components.now variables.now) conditions.now (places_of_false 0 (marks (setting components.now variables.now) conditions.now)) (map place_of v.items)) }

    // With each comes the verdict on it.
    ensures right { IfOk result (λ v. AreOpen (setting components.now variables.now) conditions.now v.items) }
{
    let found = open_conditions(alloc, gate, components, variables, conditions)?;
    unclosed(alloc, components, variables, conditions, found)
}
