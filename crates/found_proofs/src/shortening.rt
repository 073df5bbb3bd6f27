//! The least proof: candidates are left out one by one, the costliest first, as long as the rest suffices. What is left is least in
//! the sense that nothing can be left out alone.

use crate::candidates::{Candidate, Origin};
use crate::claims::Claim;
use crate::ground::{Ground, Needs};
use control_cubes::CubeFault;
use st_memory::Memory;
use std::alloc::Global;
use std::cmp::Reverse;

/// Whether a proof uses a candidate.
pub(crate) fn is_used(needs: &Needs, place: usize) -> bool {
    matches!(needs.uses.get(place), Some(Some(_)))
}

/// The marks of what a proof uses, but one.
fn all_but(alloc: Global, needs: &Needs, left_out: usize) -> Result<Vec<bool>, Memory> {
    let mut marks = Vec::with_capacity(alloc, needs.uses.len())?;
    for place in 0..needs.uses.len() {
        marks.push(place != left_out && is_used(needs, place))?;
    }
    Ok(marks)
}

/// The candidates that a proof uses and that have to be proved, the costliest first.
fn by_cost(alloc: Global, candidates: &[Candidate], needs: &Needs) -> Result<Vec<usize>, Memory> {
    let mut costs = Vec::new(alloc);
    for (place, candidate) in candidates.iter().enumerate() {
        if is_used(needs, place) && candidate.origin == Origin::Found {
            costs.push((Reverse(candidate.cost), place))?;
        }
    }
    costs.sort()?;
    let mut places = Vec::with_capacity(alloc, costs.len())?;
    for (_, place) in costs {
        places.push(place)?;
    }
    Ok(places)
}

/// What a proof uses without a candidate that it used, if the others suffice.
fn without(
    alloc: Global,
    ground: &mut Ground<'_>,
    claims: &[Claim],
    needs: &Needs,
    place: usize,
) -> Result<Option<Needs>, CubeFault> {
    let fewer = all_but(alloc, needs, place)?;
    ground.needs(alloc, claims, &fewer, Some(needs))
}

/// What is left of what a proof uses once nothing can be left out.
fn lessened(
    alloc: Global,
    ground: &mut Ground<'_>,
    claims: &[Claim],
    mut needs: Needs,
) -> Result<Needs, CubeFault> {
    for place in by_cost(alloc, &ground.candidates, &needs)? {
        if is_used(&needs, place)
            && let Some(less) = without(alloc, ground, claims, &needs, place)?
        {
            needs = less;
        }
    }
    Ok(needs)
}

/// What a proof uses of the candidates from which no one can be left out; `None` where not even all are known to suffice.
pub(crate) fn least_needs(
    alloc: Global,
    ground: &mut Ground<'_>,
    claims: &[Claim],
) -> Result<Option<Needs>, CubeFault> {
    let all = vec![in alloc; true; ground.candidates.len()]?;
    match ground.needs(alloc, claims, &all, None)? {
        Some(needs) => Ok(Some(lessened(alloc, ground, claims, needs)?)),
        None => Ok(None),
    }
}
