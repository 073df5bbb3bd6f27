//! Which facts a step keeps. A step is one of a mode; where it can be taken, control is at the mode's locations, so the facts of
//! these locations are known, and control is at no other location of the same components.

ghost use Rattle.std.specs.Prelude.{◌≡◌, IfOk, map, filter, flat_map, slice_get, is_some};
ghost use Rattle.st_linear.specs.Linear.{form_for};
ghost use Rattle.st_form.specs.Plain.{plain, plain_change};
ghost use Rattle.transition_system.specs.Plain.{plain_mode, plain_transition};
ghost use Rattle.constant_facts.specs.Rules.{is_false, is_spared, is_kept, is_owner, case_of, cases_from, decided, kept_by, kept_by_all, is_put, changes, places_or};

use crate::fact::{Constant, Fact};
use crate::knowing::{gives, is_listed, known_at};
use control_states::{Alternative, Components};
use st_form::{Change, Form};
use st_linear::Lin;
use st_memory::Memory;
use std::alloc::Global;
use transition_system::{Mode, Transition};

/// Whether the location is the component's own.
fn is_owner(owners: &[u32], location: u32, component: u32) -> bool
    ensures { result ≡ is_owner (slice_get owners.now location) component }
{
    match owners.get(location as usize) {
        Some(owner) => *owner == component,
        None => false,
    }
}

/// Of a component that owns one of these locations, this location.
fn case_of(owners: &[u32], places: &[u32], component: u32) -> Option<Alternative>
    ensures { result ≡ case_of owners.now places.now component }
{
    for place in places {
        if is_owner(owners, *place, component) {
            return Some(Alternative::Location(*place));
        }
    }
    None
}

/// Of so many components what is decided of each where control is at these locations.
fn cases(
    alloc: Global,
    owners: &[u32],
    places: &[u32],
    count: u32,
) -> Result<Vec<Option<Alternative>>, Memory>
    ensures { IfOk result (λ v. v.items ≡ cases_from owners.now places.now count 0) }
{
    let mut out = Vec::new(alloc);
    for component in 0..count {
        out.push(case_of(owners, places, component))?;
    }
    Ok(out)
}

/// Where control is at these locations, what is decided of each location.
pub(crate) fn decided(
    alloc: Global,
    components: &Components,
    places: &[u32],
) -> Result<Vec<Option<bool>>, Memory>
    ensures { IfOk result (λ v. places_or v.items ≡ decided components.now places.now) }
{
    let cases = cases(alloc, components.owners(), places, components.count())?;
    let table = components.places(alloc, &cases)?;
    Ok(table)
}

fn changes_number(numbers: &[(u32, Lin)], variable: u32) -> bool
    ensures { result ≡ is_some (form_for variable numbers.now) }
{
    for pair in numbers {
        if pair.0 == variable {
            return true;
        }
    }
    false
}

fn changes_truth(truths: &[(u32, Form)], variable: u32) -> bool
    ensures { result ≡ is_put variable (map (λ p. (p.0, plain p.1)) truths.now) }
{
    for pair in truths {
        if pair.0 == variable {
            return true;
        }
    }
    false
}

/// Whether the change gives the variable a value.
fn changes(change: &Change, variable: u32, value: &Constant) -> bool
    ensures { result ≡ changes (plain_change change.now) variable value.now }
{
    match value {
        Constant::Number(_) => changes_number(&change.numbers, variable),
        Constant::Truth(_) => changes_truth(&change.truths, variable),
    }
}

/// Whether it is decided that control isn't at the location.
pub(crate) fn is_absent(places: &[Option<bool>], location: u32) -> bool
    ensures { result ≡ is_false (places_or places.now location) }
{
    match places.get(location as usize) {
        Some(Some(present)) => !*present,
        Some(None) => false,
        None => false,
    }
}

/// Whether the location is left, or control isn't there, or the variable isn't changed.
fn is_spared(places: &[Option<bool>], change: &Change, fact: &Fact) -> bool
    ensures { result ≡ is_spared (places_or places.now) (plain_change change.now) fact.now }
{
    is_listed(fact.place, &change.leaves)
        || is_absent(places, fact.place)
        || !changes(change, fact.variable, &fact.value)
}

/// Whether the fact holds behind the change.
fn is_kept(known: &[Fact], places: &[Option<bool>], change: &Change, fact: &Fact) -> bool
    ensures { result ≡ is_kept known.now (places_or places.now) (plain_change change.now) fact.now }
{
    gives(known, change, fact.variable, &fact.value)
        || !is_listed(fact.place, &change.enters) && is_spared(places, change, fact)
}

/// The facts that hold behind the change.
fn kept_among(
    alloc: Global,
    known: &[Fact],
    places: &[Option<bool>],
    change: &Change,
    facts: &[Fact],
) -> Result<Vec<Fact>, Memory>
    ensures { IfOk result (λ v. v.items ≡ filter (is_kept known.now (places_or places.now) (plain_change change.now)) facts.now) }
{
    let mut out = Vec::new(alloc);
    for fact in facts {
        if is_kept(known, places, change, fact) {
            out.push(*fact)?;
        }
    }
    Ok(out)
}

/// Those of the facts that a mode keeps.
fn kept_by(
    alloc: Global,
    components: &Components,
    mode: &Mode,
    facts: &[Fact],
) -> Result<Vec<Fact>, Memory>
    ensures { IfOk result (λ v. v.items ≡ kept_by components.now (plain_mode mode.now) facts.now) }
{
    let known = known_at(alloc, &mode.at, facts)?;
    let places = decided(alloc, components, &mode.at)?;
    kept_among(alloc, &known, &places, &mode.change, facts)
}

/// Those that the modes in turn keep.
fn kept_by_modes(
    alloc: Global,
    components: &Components,
    modes: &[Mode],
    facts: Vec<Fact>,
) -> Result<Vec<Fact>, Memory>
    ensures { IfOk result (λ v. v.items ≡ kept_by_all components.now (map plain_mode modes.now) facts.items) }
{
    let mut left = facts;
    for mode in modes {
        left = kept_by(alloc, components, mode, &left)?;
    }
    Ok(left)
}

/// Those that all modes in turn keep.
pub(crate) fn kept_by_all(
    alloc: Global,
    components: &Components,
    transitions: &[Transition],
    facts: Vec<Fact>,
) -> Result<Vec<Fact>, Memory>
    ensures { IfOk result (λ v. v.items
        ≡ kept_by_all components.now (flat_map (λ t. t.modes) (map plain_transition transitions.now)) facts.items) }
{
    let mut left = facts;
    for transition in transitions {
        left = kept_by_modes(alloc, components, &transition.modes, left)?;
    }
    Ok(left)
}
