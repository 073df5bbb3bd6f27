//! Where items begin: a helper, and where control is.
//!
//! A helper waits at its own locations. If another component moves, an item also says where the one is that waits: at one place, or going
//! round in one of its inner cycles. In a group all items say where its transition is waited for, and one kind of them needs no helper.

use crate::cycles::cycles;
use crate::said::Said;
use clause_texts::{ClauseFault, ClauseWriter};
use control_cubes::{PlaceSet, set_form};
use control_states::Components;
use invariant_search::Search;
use st_form::Form;
use st_memory::Memory;
use std::alloc::Global;
use transition_system::{Fairness, Fts};

/// A helper, and where control is.
#[derive(Drop)]
pub(crate) struct Base {
    /// The number of the helper's transition, if there is one.
    pub(crate) helper: Option<u32>,
    pub(crate) said: Said,
    /// Whether it is tried early: it speaks of where the wait begins, or of a cycle.
    pub(crate) near: bool,
}

/// The components of which a formula says where they are, and the places.
#[derive(Drop)]
pub(crate) struct Wait {
    /// Of each component the places that are named.
    named: Vec<PlaceSet>,
}

/// Marks the places that a formula names.
#[cycle(naming)]
fn name_places(form: &Form, search: &Search<'_>, named: &mut [PlaceSet]) {
    match form {
        Form::True | Form::False | Form::Row(_) | Form::Equal(_) | Form::BoolVar(_) => {}
        Form::At(location) => {
            if let Some(place) = search.layout().of_location(*location)
                && let Some(set) = named.get_mut(place.component as usize)
            {
                *set = set.union(PlaceSet::one(place.number));
            }
        }
        Form::Not(part) => name_places(part, search, named),
        Form::And(parts) => name_all_places(parts, search, named),
        Form::Or(parts) => name_all_places(parts, search, named),
    }
}

#[cycle(naming)]
fn name_all_places(forms: &[Form], search: &Search<'_>, named: &mut [PlaceSet]) {
    for form in forms {
        name_places(form, search, named);
    }
}

impl Wait {
    /// Who waits where a formula holds.
    pub(crate) fn of(alloc: Global, search: &Search<'_>, start: &Form) -> Result<Wait, Memory> {
        let mut named = vec![in alloc; PlaceSet::EMPTY; search.layout().full().len()]?;
        name_places(start, search, &mut named);
        Ok(Wait { named })
    }

    /// The places of a component that are named.
    fn places(&self, component: usize) -> PlaceSet {
        self.named
            .get(component)
            .copied()
            .unwrap_or(PlaceSet::EMPTY)
    }
}

/// What is needed to say where control is.
#[derive(Clone, Copy)]
pub struct Setting<'s> {
    pub system: &'s Fts,
    pub components: &'s Components,
    pub writer: &'s ClauseWriter<'s>,
}

/// The text of that a component is at one of the places of a set; none where that can't be said.
fn place_text(
    alloc: Global,
    setting: Setting<'_>,
    component: usize,
    set: PlaceSet,
) -> Result<Vec<u8>, Memory> {
    match setting.writer.place(alloc, component, set) {
        Ok(text) => Ok(text),
        Err(ClauseFault::Unsaid) => Ok(Vec::new(alloc)),
        Err(ClauseFault::Memory) => Err(Memory),
    }
}

/// Appends that a component is at one of the places of a set, where that can be said.
fn push_said(
    alloc: Global,
    setting: Setting<'_>,
    search: &Search<'_>,
    component: usize,
    set: PlaceSet,
    out: &mut Vec<Said>,
) -> Result<(), Memory> {
    let text = place_text(alloc, setting, component, set)?;
    if !text.is_empty()
        && let Ok(number) = u32::try_from(component)
    {
        let form = set_form(alloc, setting.components, search.layout(), number, set)?;
        out.push(Said::new(alloc, form, text)?)?;
    }
    Ok(())
}

/// The places of a component to which control comes.
pub(crate) fn live_places(search: &Search<'_>, component: usize) -> PlaceSet {
    let full = search
        .layout()
        .full()
        .get(component)
        .copied()
        .unwrap_or(PlaceSet::EMPTY);
    let dead = search
        .dead()
        .get(component)
        .copied()
        .unwrap_or(PlaceSet::EMPTY);
    full.difference(dead)
}

/// What may be said of other components: near are the first ones.
#[derive(Drop)]
struct Extras {
    near: Vec<Said>,
    far: Vec<Said>,
}

fn no_extras(alloc: Global) -> Extras {
    Extras {
        near: Vec::new(alloc),
        far: Vec::new(alloc),
    }
}

/// Appends each place of a component; near are those of a set.
fn push_single_places(
    alloc: Global,
    setting: Setting<'_>,
    search: &Search<'_>,
    component: usize,
    near: PlaceSet,
    out: &mut Extras,
) -> Result<(), Memory> {
    let live = live_places(search, component);
    for place in 0..128 {
        let one = PlaceSet::one(place);
        if live.has(place) && near.has(place) {
            push_said(alloc, setting, search, component, one, &mut out.near)?;
        } else if live.has(place) {
            push_said(alloc, setting, search, component, one, &mut out.far)?;
        }
    }
    Ok(())
}

/// Appends the inner cycles of a component.
fn push_cycles(
    alloc: Global,
    setting: Setting<'_>,
    search: &Search<'_>,
    component: usize,
    out: &mut Vec<Said>,
) -> Result<(), Memory> {
    let number = u32::try_from(component).unwrap_or(u32::MAX);
    let places = setting.components.alternatives(number).len();
    for cycle in cycles(alloc, search.steps(), number, places)? {
        push_said(alloc, setting, search, component, cycle, out)?;
    }
    Ok(())
}

/// What items of a helper in a component that waits may say of others: where the other of two components is.
fn extras_of_waiter(
    alloc: Global,
    setting: Setting<'_>,
    search: &Search<'_>,
    component: usize,
) -> Result<Extras, Memory> {
    let mut out = no_extras(alloc);
    let count = search.layout().full().len();
    for other in 0..count {
        if count == 2 && other != component {
            push_single_places(alloc, setting, search, other, PlaceSet::EMPTY, &mut out)?;
        }
    }
    Ok(out)
}

/// What items of another helper may say of those that wait.
fn extras_of_other(
    alloc: Global,
    setting: Setting<'_>,
    search: &Search<'_>,
    wait: &Wait,
) -> Result<Extras, Memory> {
    let mut out = no_extras(alloc);
    for component in 0..wait.named.len() {
        let named = wait.places(component);
        if !named.is_empty() {
            push_single_places(alloc, setting, search, component, named, &mut out)?;
            push_cycles(alloc, setting, search, component, &mut out.near)?;
        }
    }
    Ok(out)
}

/// That control is at all these locations; nothing where that can't be said.
pub(crate) fn own_locations(
    alloc: Global,
    setting: Setting<'_>,
    search: &Search<'_>,
    locations: &[u32],
) -> Result<Vec<Said>, Memory> {
    let mut parts = Vec::new(alloc);
    for location in locations {
        if let Some(place) = search.layout().of_location(*location) {
            let set = PlaceSet::one(place.number);
            push_said(
                alloc,
                setting,
                search,
                place.component as usize,
                set,
                &mut parts,
            )?;
        }
    }
    let mut out = Vec::new(alloc);
    if parts.len() == locations.len() {
        push_joined(alloc, &parts, &mut out)?;
    }
    Ok(out)
}

/// Appends all parts as one; nothing where there are none.
fn push_joined(alloc: Global, parts: &[Said], out: &mut Vec<Said>) -> Result<(), Memory> {
    for part in parts {
        let said = match out.pop() {
            Some(before) => before.and(alloc, part)?,
            None => part.copy(alloc)?,
        };
        out.push(said)?;
    }
    Ok(())
}

/// A transition whose items are looked for: its number, where it waits, and which of the components that is.
#[derive(Clone, Copy)]
struct Helper<'a> {
    number: u32,
    own: &'a Said,
    component: usize,
    place: u8,
}

/// Appends a base for each of these, which stands in front of the helper's own locations.
fn push_with(
    alloc: Global,
    helper: Helper<'_>,
    extras: &[Said],
    near: bool,
    out: &mut Vec<Base>,
) -> Result<(), Memory> {
    for extra in extras {
        out.push(Base {
            helper: Some(helper.number),
            said: extra.and(alloc, helper.own)?,
            near,
        })?;
    }
    Ok(())
}

/// Appends the base of a helper that says nothing of others.
fn push_alone(
    alloc: Global,
    helper: Helper<'_>,
    near: bool,
    out: &mut Vec<Base>,
) -> Result<(), Memory> {
    out.push(Base {
        helper: Some(helper.number),
        said: helper.own.copy(alloc)?,
        near,
    })?;
    Ok(())
}

/// Appends the bases of a helper.
fn push_bases(
    alloc: Global,
    setting: Setting<'_>,
    search: &Search<'_>,
    wait: &Wait,
    helper: Helper<'_>,
    out: &mut Vec<Base>,
) -> Result<(), Memory> {
    let named = wait.places(helper.component);
    if named.is_empty() {
        let extras = extras_of_other(alloc, setting, search, wait)?;
        push_with(alloc, helper, &extras.near, true, out)?;
        push_with(alloc, helper, &extras.far, false, out)?;
        return push_alone(alloc, helper, false, out);
    }
    let near = named.has(helper.place);
    push_alone(alloc, helper, near, out)?;
    let extras = extras_of_waiter(alloc, setting, search, helper.component)?;
    push_with(alloc, helper, &extras.far, false, out)
}

/// Appends the bases of the transition with a number, which waits at these locations.
fn push_bases_of(
    alloc: Global,
    setting: Setting<'_>,
    search: &Search<'_>,
    wait: &Wait,
    number: usize,
    locations: &[u32],
    out: &mut Vec<Base>,
) -> Result<(), Memory> {
    let own = own_locations(alloc, setting, search, locations)?;
    let first = locations.first().copied().unwrap_or(u32::MAX);
    if let Some(own) = own.first()
        && let Some(place) = search.layout().of_location(first)
        && let Ok(number) = u32::try_from(number)
    {
        let helper = Helper {
            number,
            own,
            component: place.component as usize,
            place: place.number,
        };
        push_bases(alloc, setting, search, wait, helper, out)?;
    }
    Ok(())
}

/// The bases of all transitions with a fairness, in the order of the system.
pub(crate) fn bases(
    alloc: Global,
    setting: Setting<'_>,
    search: &Search<'_>,
    wait: &Wait,
    fairness: Fairness,
) -> Result<Vec<Base>, Memory> {
    let system = setting.system;
    let mut out = Vec::new(alloc);
    for (number, transition) in system.transitions.iter().enumerate() {
        if transition.fairness == fairness
            && let Some(mode) = transition.modes.first()
        {
            push_bases_of(alloc, setting, search, wait, number, &mode.at, &mut out)?;
        }
    }
    Ok(out)
}

/// Appends the base of a just transition of a component that waits, at these locations.
fn push_own_base(
    alloc: Global,
    setting: Setting<'_>,
    search: &Search<'_>,
    wait: &Wait,
    number: usize,
    locations: &[u32],
    out: &mut Vec<Base>,
) -> Result<(), Memory> {
    let first = locations.first().copied().unwrap_or(u32::MAX);
    let Some(place) = search.layout().of_location(first) else {
        return Ok(());
    };
    if wait.places(place.component as usize).is_empty() {
        return Ok(());
    }
    for own in own_locations(alloc, setting, search, locations)? {
        out.push(Base {
            helper: u32::try_from(number).ok(),
            said: own,
            near: true,
        })?;
    }
    Ok(())
}

/// The bases of all just transitions of components that wait that say nothing but where these are.
pub(crate) fn own_bases(
    alloc: Global,
    setting: Setting<'_>,
    search: &Search<'_>,
    wait: &Wait,
) -> Result<Vec<Base>, Memory> {
    let system = setting.system;
    let mut out = Vec::new(alloc);
    for (number, transition) in system.transitions.iter().enumerate() {
        if transition.fairness == Fairness::Just
            && let Some(mode) = transition.modes.first()
        {
            push_own_base(alloc, setting, search, wait, number, &mode.at, &mut out)?;
        }
    }
    Ok(out)
}
