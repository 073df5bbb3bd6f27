//! Lemmas that no goal asked for: of all simple clauses those that are inductive together.
//!
//! Candidates that fail are dropped until the rest keep each other (Flanagan and Leino, Houdini, an annotation assistant for ESC/Java, 2001).
//! A response may need what no claim of safety did.

use crate::bases::live_places;
use control_cubes::{Cube, CubeFault, Layout, PlaceSet, State, merged, opposite};
use invariant_search::{ALWAYS, Allowed, Answer, Entry, Search};
use st_form::Variable;
use st_linear::Lin;
use st_memory::Memory;
use std::alloc::Global;

/// The most candidates of one kind.
const MOST: usize = 20_000;

/// The cubes of a single literal.
fn literal_cubes(
    alloc: Global,
    search: &Search<'_>,
    variables: &[Variable],
) -> Result<Vec<Cube>, CubeFault> {
    let layout = search.layout();
    let mut out = Vec::new(alloc);
    for (number, variable) in variables.iter().enumerate() {
        if let Ok(number) = u32::try_from(number)
            && variable.truth
        {
            for value in [true, false] {
                let mut cube = Cube::everything(alloc, layout)?;
                cube.push_truth(number, value)?;
                out.push(cube)?;
            }
        }
    }
    for row in search.pool() {
        out.push(row_cube(alloc, layout, row)?)?;
        out.push(row_cube(alloc, layout, &opposite(alloc, row)?)?)?;
    }
    Ok(out)
}

/// The cube of a row.
fn row_cube(alloc: Global, layout: &Layout, row: &Lin) -> Result<Cube, CubeFault> {
    let mut cube = Cube::everything(alloc, layout)?;
    cube.push_row(alloc, row)?;
    Ok(cube)
}

/// The cubes with a component at each place to which control comes.
fn placed(
    alloc: Global,
    search: &Search<'_>,
    cubes: &[Cube],
    component: usize,
    out: &mut Vec<Cube>,
) -> Result<(), CubeFault> {
    let Ok(number) = u32::try_from(component) else {
        return Ok(());
    };
    let live = live_places(search, component);
    for place in 0..128 {
        if !live.has(place) {
            continue;
        }
        for cube in cubes {
            if out.len() >= MOST {
                return Ok(());
            }
            let mut at = cube.copy(alloc)?;
            at.set_places(number, PlaceSet::one(place));
            out.push(at)?;
        }
    }
    Ok(())
}

/// The literals, and each with one component at a place.
fn singles(
    alloc: Global,
    search: &Search<'_>,
    literals: Vec<Cube>,
) -> Result<Vec<Cube>, CubeFault> {
    let mut out = Vec::new(alloc);
    for component in 0..search.layout().full().len() {
        placed(alloc, search, &literals, component, &mut out)?;
    }
    let mut all = literals;
    all.append(&mut out)?;
    Ok(all)
}

/// Nothing and each literal, with two components at a place each.
fn pairs(alloc: Global, search: &Search<'_>, literals: Vec<Cube>) -> Result<Vec<Cube>, CubeFault> {
    let mut parts = Vec::new(alloc);
    parts.push(Cube::everything(alloc, search.layout())?)?;
    let mut literals = literals;
    parts.append(&mut literals)?;
    let mut out = Vec::new(alloc);
    let count = search.layout().full().len();
    for component in 0..count {
        let mut at = Vec::new(alloc);
        placed(alloc, search, &parts, component, &mut at)?;
        for other in component.saturating_add(1)..count {
            placed(alloc, search, &at, other, &mut out)?;
        }
    }
    Ok(out)
}

/// A candidate that the search has for a lemma, and the lemmas because of which it was kept by each step when it was checked last, if it
/// was.
#[derive(Drop)]
struct Tried {
    cube: Cube,
    number: u32,
    stands: bool,
    checked: bool,
    core: Vec<u32>,
}

/// Whether a cube may be a lemma's: no run is known to come to it, and no lemma has it in its own.
fn may_be_learned(search: &Search<'_>, cube: &Cube) -> bool {
    !search.reach().meets(cube) && !search.is_covered(cube, ALWAYS)
}

/// Takes the cubes in which no run begins for lemmas, but those that needn't or can't be.
fn taken(
    alloc: Global,
    search: &mut Search<'_>,
    cubes: Vec<Cube>,
) -> Result<Vec<Tried>, CubeFault> {
    let mut out = Vec::with_capacity(alloc, cubes.len())?;
    for cube in cubes {
        if may_be_learned(search, &cube)
            && let Answer::Never(_) = search.begins_in(alloc, &cube)?
        {
            let clause = cube.clause(alloc, search.components(), search.layout())?;
            let number = search.give(alloc, clause)?;
            out.push(Tried {
                cube,
                number,
                stands: true,
                checked: false,
                core: Vec::new(alloc),
            })?;
        }
    }
    Ok(out)
}

/// Drops the candidates that a state breaks.
fn drop_broken(search: &mut Search<'_>, tried: &mut [Tried], state: &State) {
    for candidate in tried {
        if candidate.stands && candidate.cube.contains(state) {
            candidate.stands = false;
            search.drop_lemma(candidate.number);
        }
    }
}

/// Whether a candidate is to be checked: it stands, and what it was kept because of doesn't, all of it.
fn is_due(search: &Search<'_>, candidate: &Tried) -> bool {
    let settled = candidate.checked
        && candidate.core.iter().all(
            |number| matches!(search.lemmas().get(*number as usize), Some(lemma) if lemma.stands),
        );
    candidate.stands && !settled
}

/// Remembers the lemmas because of which the candidate with a number is kept by each step.
fn settle(tried: &mut [Tried], number: usize, core: Vec<u32>) {
    if let Some(candidate) = tried.get_mut(number) {
        candidate.checked = true;
        candidate.core = core;
    }
}

/// Checks the candidate with a number once, where that is due. Whether something was dropped.
fn is_dropped(
    alloc: Global,
    search: &mut Search<'_>,
    tried: &mut [Tried],
    number: usize,
) -> Result<bool, CubeFault> {
    let entry = match tried.get(number) {
        Some(candidate) if is_due(search, candidate) => {
            search.cube_kept_by(alloc, &candidate.cube, Allowed::From(ALWAYS))?
        }
        _ => return Ok(false),
    };
    match entry {
        Entry::Blocked(core) => {
            settle(tried, number, core);
            Ok(false)
        }
        Entry::Before(state, step) => {
            let behind = search.state_behind(alloc, &state, step)?;
            drop_one(search, tried, number);
            if let Some(behind) = &behind {
                drop_broken(search, tried, behind);
            }
            Ok(true)
        }
        Entry::Unknown(_) => {
            drop_one(search, tried, number);
            Ok(true)
        }
    }
}

/// Drops the candidate with a number.
fn drop_one(search: &mut Search<'_>, tried: &mut [Tried], number: usize) {
    if let Some(candidate) = tried.get_mut(number) {
        candidate.stands = false;
        search.drop_lemma(candidate.number);
    }
}

/// The cubes that are left when no candidate fails any longer; the search has none of them for a lemma.
fn kept(alloc: Global, search: &mut Search<'_>, cubes: Vec<Cube>) -> Result<Vec<Cube>, CubeFault> {
    let mut tried = taken(alloc, search, cubes)?;
    for _ in 0..tried.len() {
        let mut changed = false;
        for number in 0..tried.len() {
            if is_dropped(alloc, search, &mut tried, number)? {
                changed = true;
            }
        }
        if !changed {
            break;
        }
    }
    let mut out = Vec::new(alloc);
    for candidate in tried {
        if candidate.stands {
            search.drop_lemma(candidate.number);
            out.push(candidate.cube)?;
        }
    }
    Ok(out)
}

/// Gives the search what is inductive of these cubes' complements.
fn learn_of(alloc: Global, search: &mut Search<'_>, cubes: Vec<Cube>) -> Result<(), CubeFault> {
    let kept = kept(alloc, search, cubes)?;
    let mut joined = merged(alloc, kept)?;
    let layout = search.layout();
    joined.sort_by_key(|cube| cube.size(layout))?;
    for cube in joined {
        search.add(alloc, cube, ALWAYS)?;
    }
    Ok(())
}

/// Gives the search that a component is at none of some places to which control never comes.
fn exclude(
    alloc: Global,
    search: &mut Search<'_>,
    component: usize,
    never: PlaceSet,
) -> Result<(), CubeFault> {
    if !never.is_empty()
        && let Ok(number) = u32::try_from(component)
    {
        let mut cube = Cube::everything(alloc, search.layout())?;
        cube.set_places(number, never);
        search.add(alloc, cube, ALWAYS)?;
    }
    Ok(())
}

/// Gives the search that control comes to no place to which no chain of steps leads, since clauses and chains have to say nothing of such places then.
fn exclude_dead(alloc: Global, search: &mut Search<'_>) -> Result<(), CubeFault> {
    for component in 0..search.dead().len() {
        let never = search
            .dead()
            .get(component)
            .copied()
            .unwrap_or(PlaceSet::EMPTY);
        exclude(alloc, search, component, never)?;
    }
    Ok(())
}

/// Gives the search what is inductive of the clauses of one literal, alone or at one place.
pub fn learn(
    alloc: Global,
    search: &mut Search<'_>,
    variables: &[Variable],
) -> Result<(), CubeFault> {
    exclude_dead(alloc, search)?;
    let literals = literal_cubes(alloc, search, variables)?;
    let singles = singles(alloc, search, literals)?;
    learn_of(alloc, search, singles)
}

/// Gives the search what is inductive of the clauses of one literal at two places, and before it of those that say nothing but places.
pub fn learn_more(
    alloc: Global,
    search: &mut Search<'_>,
    variables: &[Variable],
) -> Result<(), CubeFault> {
    let places = pairs(alloc, search, Vec::new(alloc))?;
    learn_of(alloc, search, places)?;
    let literals = literal_cubes(alloc, search, variables)?;
    let pairs = pairs(alloc, search, literals)?;
    learn_of(alloc, search, pairs)
}
