//! The candidates of a proof, by rising cost, from what a search has found.

use crate::candidates::{
    Candidate, Origin, generalized, lasting_cubes, push_candidates, with_joined, with_variants,
};
use crate::claims::Claim;
use crate::ground::{Ground, Needs};
use crate::proving::Task;
use crate::shortening::is_used;
use crate::steps::Citable;
use crate::subject::Subject;
use clause_texts::{ClauseWriter, Phrase, Shape};
use control_cubes::{Cube, CubeFault};
use invariant_search::Search;
use st_memory::Memory;
use std::alloc::Global;

/// The text of what isn't written.
fn no_phrase(alloc: Global) -> Phrase {
    Phrase {
        text: Vec::new(alloc),
        shape: Shape::Atom,
    }
}

/// The claims of earlier steps as candidates, which cost nothing.
pub(crate) fn known_candidates(alloc: Global, known: &[Citable]) -> Result<Vec<Candidate>, Memory> {
    let mut out = Vec::with_capacity(alloc, known.len())?;
    for (number, step) in known.iter().enumerate() {
        out.push(Candidate {
            origin: Origin::Known(number),
            cube: None,
            form: step.claim.copy(alloc)?,
            phrase: no_phrase(alloc),
            cost: 0,
        })?;
    }
    Ok(out)
}

/// An equal cube, if there is one.
fn copied(alloc: Global, cube: Option<&Cube>) -> Result<Option<Cube>, Memory> {
    match cube {
        Some(cube) => Ok(Some(cube.copy(alloc)?)),
        None => Ok(None),
    }
}

/// Equal candidates, without their texts.
fn without_texts(alloc: Global, candidates: &[Candidate]) -> Result<Vec<Candidate>, Memory> {
    let mut out = Vec::with_capacity(alloc, candidates.len())?;
    for candidate in candidates {
        out.push(Candidate {
            origin: candidate.origin,
            cube: copied(alloc, candidate.cube.as_ref())?,
            form: candidate.form.copy(alloc)?,
            phrase: no_phrase(alloc),
            cost: candidate.cost,
        })?;
    }
    Ok(out)
}

/// Cubes as candidates without texts.
fn push_cubes(
    alloc: Global,
    subject: &Subject,
    search: &Search<'_>,
    cubes: &[Cube],
    out: &mut Vec<Candidate>,
) -> Result<(), Memory> {
    for cube in cubes {
        out.push(Candidate {
            origin: Origin::Found,
            cube: Some(cube.copy(alloc)?),
            form: cube.clause(alloc, &subject.components, search.layout())?,
            phrase: no_phrase(alloc),
            cost: 0,
        })?;
    }
    Ok(())
}

/// The cubes of the candidates that are needed; of all, where it isn't known what is.
fn cubes_among(
    alloc: Global,
    candidates: &[Candidate],
    needs: Option<&Needs>,
) -> Result<Vec<Cube>, Memory> {
    let mut out = Vec::new(alloc);
    for (place, candidate) in candidates.iter().enumerate() {
        if needs.is_none_or(|needs| is_used(needs, place))
            && let Some(cube) = &candidate.cube
        {
            out.push(cube.copy(alloc)?)?;
        }
    }
    Ok(out)
}

/// The cubes that a proof of the claims uses.
fn cubes_used(
    alloc: Global,
    ground: &mut Ground<'_>,
    claims: &[Claim],
) -> Result<Vec<Cube>, CubeFault> {
    let all = vec![in alloc; true; ground.candidates.len()]?;
    let needs = ground.needs(alloc, claims, &all, None)?;
    Ok(cubes_among(alloc, &ground.candidates, needs.as_ref())?)
}

/// Those of the cubes that a proof of the claims uses as they were found; all, where it isn't known that they suffice. With how many
/// of the queries that may be asked for it are left.
fn needed_cubes(
    alloc: Global,
    subject: &Subject,
    search: &Search<'_>,
    given: &[Candidate],
    cubes: &[Cube],
    claims: &[Claim],
    budget: u64,
) -> Result<(Vec<Cube>, u64), CubeFault> {
    let mut candidates = without_texts(alloc, given)?;
    push_cubes(alloc, subject, search, cubes, &mut candidates)?;
    let mut ground = Ground::new(alloc, subject, candidates, budget)?;
    let needed = cubes_used(alloc, &mut ground, claims)?;
    Ok((needed, ground.give_back()))
}

/// All candidates for a proof of the claims, by rising cost, and how many of the queries that may be asked beside those of the search are
/// left.
pub(crate) fn chosen(
    alloc: Global,
    task: Task<'_>,
    search: &mut Search<'_>,
    writer: &ClauseWriter<'_>,
    given: Vec<Candidate>,
    claims: &[Claim],
    budget: u64,
) -> Result<(Vec<Candidate>, u64), CubeFault> {
    let subject = task.subject;
    let cubes = lasting_cubes(alloc, search)?;
    let (needed, left) = needed_cubes(alloc, subject, search, &given, &cubes, claims, budget)?;
    let general = generalized(alloc, search, &needed)?;
    let joined = with_joined(alloc, cubes, &needed, general)?;
    let all = with_variants(alloc, search, joined, task.attempt.plain)?;
    let mut candidates = given;
    push_candidates(alloc, subject, search, writer, all, &mut candidates)?;
    candidates.sort_by_key(|candidate| candidate.cost)?;
    Ok((candidates, left))
}
