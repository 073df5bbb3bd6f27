//! The bases of a group: where its transition is awaited, each item says so, and either needs no helper, as the transition is enabled, or has
//! a just transition beside it.

use crate::bases::{Base, Setting, own_locations};
use crate::literals::push_comparison;
use crate::said::Said;
use clause_texts::Comparison;
use invariant_search::Search;
use st_form::Form;
use st_memory::Memory;
use std::alloc::Global;
use transition_system::{Fairness, Mode};

/// Appends the base of a just transition that waits at these locations, in a group that waits where `region` says.
fn push_base_in(
    alloc: Global,
    setting: Setting<'_>,
    search: &Search<'_>,
    region: &Said,
    number: usize,
    locations: &[u32],
    out: &mut Vec<Base>,
) -> Result<(), Memory> {
    for own in own_locations(alloc, setting, search, locations)? {
        out.push(Base {
            helper: u32::try_from(number).ok(),
            said: region.and(alloc, &own)?,
            near: false,
        })?;
    }
    Ok(())
}

/// Appends that a mode's guard holds, where it is one comparison that can be said.
fn push_guard(
    alloc: Global,
    setting: Setting<'_>,
    mode: &Mode,
    out: &mut Vec<Said>,
) -> Result<(), Memory> {
    if let Form::Row(row) = &mode.guard {
        push_comparison(alloc, setting.writer, row, Comparison::AtLeast, out)?;
    }
    Ok(())
}

/// Appends the guard of the first mode of the transition with a number, where it is one comparison that can be said.
fn push_guard_of(
    alloc: Global,
    setting: Setting<'_>,
    number: u32,
    out: &mut Vec<Said>,
) -> Result<(), Memory> {
    let system = setting.system;
    if let Some(transition) = system.transitions.get(number as usize)
        && let Some(mode) = transition.modes.first()
    {
        push_guard(alloc, setting, mode, out)?;
    }
    Ok(())
}

/// Appends the bases that need no helper, of a group that waits for the transition with a number where `region` says: where the guard
/// holds, and anywhere.
fn push_helpless(
    alloc: Global,
    setting: Setting<'_>,
    region: &Said,
    awaited: u32,
    out: &mut Vec<Base>,
) -> Result<(), Memory> {
    let mut guards = Vec::new(alloc);
    push_guard_of(alloc, setting, awaited, &mut guards)?;
    for guard in &guards {
        out.push(Base {
            helper: None,
            said: region.and(alloc, guard)?,
            near: true,
        })?;
    }
    out.push(Base {
        helper: None,
        said: region.copy(alloc)?,
        near: true,
    })?;
    Ok(())
}

/// The bases of a group that waits for the transition with a number where `region` says: first where it needs no helper, which are near,
/// then each just transition beside it.
pub(crate) fn bases_in(
    alloc: Global,
    setting: Setting<'_>,
    search: &Search<'_>,
    region: &Said,
    awaited: u32,
) -> Result<Vec<Base>, Memory> {
    let system = setting.system;
    let mut out = Vec::new(alloc);
    push_helpless(alloc, setting, region, awaited, &mut out)?;
    for (number, transition) in system.transitions.iter().enumerate() {
        if transition.fairness == Fairness::Just
            && let Some(mode) = transition.modes.first()
        {
            push_base_in(alloc, setting, search, region, number, &mode.at, &mut out)?;
        }
    }
    Ok(out)
}
