//! What may stand in a proof: the lemmas that were found, in the forms in which they may be written.
//!
//! A lemma that the search found blocks what the search met, and mostly can be stronger. So each is made as general as the lemmas
//! together allow, and cubes that differ in one component are joined. Of each the same clause is tried without the places to
//! which control never comes, and with an equation where a bound is known: weaker clauses, but shorter ones. The cheapest that
//! suffice are chosen later.

use crate::subject::Subject;
use clause_texts::{ClauseFault, ClauseWriter, Phrase};
use control_cubes::{Cube, CubeFault, PlaceSet, merged, opposite};
use invariant_search::{ALWAYS, Search};
use st_form::{Form, Lin};
use st_memory::Memory;
use std::alloc::Global;

/// Where a candidate comes from.
#[derive(Clone, Copy, Debug, PartialEq, Eq)]
pub(crate) enum Origin {
    /// An earlier step, by its number, which is cited and needs no proof.
    Known(usize),
    /// It would be a conjunct of a step of its own.
    Found,
}

/// A lemma that may be used.
#[derive(Drop)]
pub(crate) struct Candidate {
    pub(crate) origin: Origin,
    pub(crate) cube: Option<Cube>,
    pub(crate) form: Form,
    pub(crate) phrase: Phrase,
    pub(crate) cost: usize,
}

/// Whether the cubes have the same states, as far as one literal implies another.
fn are_equal(one: &Cube, other: &Cube) -> bool {
    one.covers(other) && other.covers(one)
}

/// Whether one of the cubes has these states.
fn has_equal(cubes: &[Cube], cube: &Cube) -> bool {
    cubes.iter().any(|other| are_equal(other, cube))
}

/// Appends a cube that isn't there.
fn push_apart(cubes: &mut Vec<Cube>, cube: Cube) -> Result<(), Memory> {
    if !has_equal(cubes, &cube) {
        cubes.push(cube)?;
    }
    Ok(())
}

/// The cubes of all lemmas that hold always.
pub(crate) fn lasting_cubes(alloc: Global, search: &Search<'_>) -> Result<Vec<Cube>, Memory> {
    let mut cubes = Vec::new(alloc);
    for lemma in search.lemmas() {
        if lemma.stands
            && lemma.level == ALWAYS
            && let Some(cube) = &lemma.cube
        {
            cubes.push(cube.copy(alloc)?)?;
        }
    }
    Ok(cubes)
}

/// The cubes as general as the search can make them with all lemmas that hold always.
pub(crate) fn generalized(
    alloc: Global,
    search: &mut Search<'_>,
    cubes: &[Cube],
) -> Result<Vec<Cube>, CubeFault> {
    let mut out = Vec::new(alloc);
    for cube in cubes {
        let general = search.general(alloc, cube, ALWAYS)?;
        push_apart(&mut out, general)?;
    }
    Ok(out)
}

/// The cubes, and those that come of joining those that are marked with the more general ones.
pub(crate) fn with_joined(
    alloc: Global,
    mut cubes: Vec<Cube>,
    needed: &[Cube],
    general: Vec<Cube>,
) -> Result<Vec<Cube>, Memory> {
    let mut parts = Vec::new(alloc);
    for cube in needed {
        parts.push(cube.copy(alloc)?)?;
    }
    for cube in general {
        parts.push(cube.copy(alloc)?)?;
        push_apart(&mut cubes, cube)?;
    }
    for cube in merged(alloc, parts)? {
        push_apart(&mut cubes, cube)?;
    }
    Ok(cubes)
}

/// The cube without the places to which control never comes, where fewer places are said so than others are left.
fn without_dead(
    alloc: Global,
    cube: &Cube,
    full: &[PlaceSet],
    dead: &[PlaceSet],
) -> Result<Cube, Memory> {
    let mut out = cube.copy(alloc)?;
    for ((set, all), never) in out.places.iter_mut().zip(full).zip(dead) {
        let live = set.difference(*never);
        let others = all.difference(*set);
        if !never.is_empty()
            && !others.is_empty()
            && never.is_within(*set)
            && live.len() <= others.len()
        {
            *set = live;
        }
    }
    Ok(out)
}

/// The rows of which it is known that they are at least 0 in every state: clauses of a single row.
fn bounds(alloc: Global, cubes: &[Cube], full: &[PlaceSet]) -> Result<Vec<Lin>, CubeFault> {
    let mut out = Vec::new(alloc);
    for cube in cubes {
        if let [row] = cube.rows.as_slice()
            && cube.truths.is_empty()
            && cube.places.as_slice() == full
        {
            out.push(opposite(alloc, row)?)?;
        }
    }
    Ok(out)
}

/// Whether a known bound makes a row of a cube an equation: the row says no more than that the bound is reached.
fn reaches(bound: &Lin, row: &Lin) -> bool {
    bound.constant().checked_neg() == Some(row.constant())
        && bound.entries().len() == row.entries().len()
        && bound.entries().iter().zip(row.entries()).all(|(entry, other)| {
            entry.0 == other.0 && entry.1.checked_neg() == Some(other.1)
        })
}

/// The cube with an equation in the place of each row at which a bound is reached.
fn with_equations(alloc: Global, cube: &Cube, bounds: &[Lin]) -> Result<Cube, CubeFault> {
    let mut out = cube.copy(alloc)?;
    for row in &cube.rows {
        if let Some(bound) = bounds.iter().find(|bound| reaches(bound, row)) {
            out.push_row(alloc, bound)?;
        }
    }
    Ok(out)
}

/// Appends the shorter variants of a cube.
fn push_variants(
    alloc: Global,
    search: &Search<'_>,
    cube: &Cube,
    bounds: &[Lin],
    out: &mut Vec<Cube>,
) -> Result<(), CubeFault> {
    out.push(with_equations(alloc, cube, bounds)?)?;
    let live = without_dead(alloc, cube, search.layout().full(), search.dead())?;
    out.push(with_equations(alloc, &live, bounds)?)?;
    out.push(live)?;
    Ok(())
}

/// The shorter variants of cubes.
fn variants_of(alloc: Global, search: &Search<'_>, cubes: &[Cube]) -> Result<Vec<Cube>, CubeFault> {
    let bounds = bounds(alloc, cubes, search.layout().full())?;
    let mut out = Vec::new(alloc);
    for cube in cubes {
        push_variants(alloc, search, cube, &bounds, &mut out)?;
    }
    Ok(out)
}

/// The cubes with their shorter variants behind them. Equations in front of an arrow make joint conditions wide, so `plain` leaves those
/// variants out.
pub(crate) fn with_variants(
    alloc: Global,
    search: &Search<'_>,
    mut cubes: Vec<Cube>,
    plain: bool,
) -> Result<Vec<Cube>, CubeFault> {
    if plain {
        return Ok(cubes);
    }
    for variant in variants_of(alloc, search, &cubes)? {
        push_apart(&mut cubes, variant)?;
    }
    Ok(cubes)
}

/// The clause of a cube, and what it costs.
fn priced(
    alloc: Global,
    writer: &ClauseWriter<'_>,
    cube: &Cube,
) -> Result<(Phrase, usize), ClauseFault> {
    let phrase = writer.clause(alloc, cube)?;
    let cost = writer.cost(alloc, cube, phrase.text.len())?;
    Ok((phrase, cost))
}

/// Appends the candidate of a cube, if its clause can be said.
fn push_candidate(
    alloc: Global,
    subject: &Subject,
    search: &Search<'_>,
    writer: &ClauseWriter<'_>,
    cube: Cube,
    out: &mut Vec<Candidate>,
) -> Result<(), Memory> {
    let (phrase, cost) = match priced(alloc, writer, &cube) {
        Ok(pair) => pair,
        Err(ClauseFault::Unsaid) => return Ok(()),
        Err(ClauseFault::Memory) => return Err(Memory),
    };
    let form = cube.clause(alloc, &subject.components, search.layout())?;
    out.push(Candidate {
        origin: Origin::Found,
        cube: Some(cube),
        form,
        phrase,
        cost,
    })?;
    Ok(())
}

/// Appends the candidates of cubes.
pub(crate) fn push_candidates(
    alloc: Global,
    subject: &Subject,
    search: &Search<'_>,
    writer: &ClauseWriter<'_>,
    cubes: Vec<Cube>,
    out: &mut Vec<Candidate>,
) -> Result<(), Memory> {
    for cube in cubes {
        push_candidate(alloc, subject, search, writer, cube, out)?;
    }
    Ok(())
}
