//! What components are at behind a change: at the location of their own that it enters, and else where they were, if it doesn't
//! leave that. Who enters a cooperation is inside it then; the children that leave one are nowhere.

ghost use Rattle.std.specs.Prelude.{◌≡◌, ℕ, ◌<◌, ◌≤◌, IfOk, None, length, slice_get};
ghost use Rattle.st_form.specs.Plain.{plain_change};
ghost use Rattle.transition_system.specs.Bounds.{RisesFrom};
ghost use Rattle.shown_states.specs.Places.{place_of, is_owner, entered, inside_by, stayed, place_behind};

use control_states::{Alternative, Components};
use st_form::{Change, Part, TransName};
use st_memory::Memory;
use std::alloc::Global;

/// Whether a component is the owner of a location.
fn is_owner(owners: &[u32], component: u32, location: u32) -> bool
    ensures { result ≡ is_owner component (slice_get owners.now location) }
{
    match owners.get(location as usize) {
        Some(owner) => *owner == component,
        None => false,
    }
}

/// The first of these locations that a component is the owner of.
fn entered(owners: &[u32], component: u32, locations: &[u32]) -> Option<u32>
    ensures { result ≡ entered owners.now component locations.now }
{
    for location in locations {
        if is_owner(owners, component, *location) {
            return Some(*location);
        }
    }
    None
}

/// What a component is at that leaves a location and enters none.
fn inside_by(name: TransName) -> Option<Alternative>
    ensures { result ≡ inside_by name }
{
    match name {
        TransName::Idle => None,
        TransName::Step { occ, part } => match part {
            Part::Whole => None,
            Part::Entry => Some(Alternative::Inside(occ)),
            Part::Exit => None,
        },
    }
}

/// What a component stays at that enters no location.
fn stayed(leaves: &[u32], name: TransName, place: Alternative) -> Option<Alternative>
    ensures { result ≡ stayed leaves.now name place }
{
    match place {
        Alternative::Location(location) => {
            if leaves.contains(&location) {
                inside_by(name)
            } else {
                Some(place)
            }
        }
        Alternative::Inside(_) => Some(place),
    }
}

/// What a component is listed at.
fn place_of(control: &[(u32, Alternative)], component: u32) -> Option<Alternative>
    ensures { result ≡ place_of component control.now }
{
    for entry in control {
        if entry.0 == component {
            return Some(entry.1);
        }
    }
    None
}

/// What a component is at behind a change.
fn place_behind(
    owners: &[u32],
    control: &[(u32, Alternative)],
    change: &Change,
    name: TransName,
    component: u32,
) -> Option<Alternative>
    ensures { result ≡ place_behind owners.now control.now (plain_change change.now) name component }
{
    match entered(owners, component, &change.enters) {
        Some(location) => Some(Alternative::Location(location)),
        None => match place_of(control, component) {
            Some(place) => stayed(&change.leaves, name, place),
            None => None,
        },
    }
}

/// What the components are at behind a change, by rising number.
pub(crate) fn control_behind(
    alloc: Global,
    components: &Components,
    control: &[(u32, Alternative)],
    change: &Change,
    name: TransName,
) -> Result<Vec<(u32, Alternative)>, Memory>
    ensures rises { IfOk result (λ v. RisesFrom 0 v.items) }
    ensures listed { IfOk result (λ v. (c : ℕ) → c < length components.now.components
        → place_of c v.items ≡ place_behind components.now.owners control.now (plain_change change.now) name c) }
    ensures absent { IfOk result (λ v. (c : ℕ) → length components.now.components ≤ c → place_of c v.items ≡ None) }
{
    let owners = components.owners();
    let mut out = Vec::new(alloc);
    for component in 0..components.count() {
        match place_behind(owners, control, change, name, component) {
            Some(place) => out.push((component, place))?,
            None => {}
        }
    }
    Ok(out)
}
