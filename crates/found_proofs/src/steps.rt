//! The lemmas of a proof as steps: one for each layer, each a conjunction of clauses that cites the steps in front of it.

use crate::candidates::{Candidate, Origin};
use crate::ground::Needs;
use crate::layers::layers;
use clause_texts::{ClauseFault, ClauseWriter, Phrase, Sentence};
use control_cubes::Cube;
use st_form::Form;
use st_memory::Memory;
use std::alloc::Global;
use step_report::push_text;

/// A step that can be cited: its name, and what it claims.
#[derive(Drop)]
pub(crate) struct Citable {
    pub(crate) name: String,
    pub(crate) claim: Form,
}

/// The candidates that a proof has to prove, in order, and of each candidate its place among them.
#[derive(Drop)]
struct Members {
    places: Vec<usize>,
    numbers: Vec<Option<usize>>,
}

fn members_of(alloc: Global, candidates: &[Candidate], needs: &Needs) -> Result<Members, Memory> {
    let mut places = Vec::new(alloc);
    let mut numbers = Vec::with_capacity(alloc, candidates.len())?;
    for (place, candidate) in candidates.iter().enumerate() {
        let used = matches!(needs.uses.get(place), Some(Some(_)));
        if used && candidate.origin == Origin::Found {
            numbers.push(Some(places.len()))?;
            places.push(place)?;
        } else {
            numbers.push(None)?;
        }
    }
    Ok(Members { places, numbers })
}

/// What each member uses of the others, by their numbers.
fn uses_of_members(
    alloc: Global,
    needs: &Needs,
    members: &Members,
) -> Result<Vec<Vec<usize>>, Memory> {
    let mut out = Vec::with_capacity(alloc, members.places.len())?;
    for place in &members.places {
        let mut uses = Vec::new(alloc);
        if let Some(Some(used)) = needs.uses.get(*place) {
            for other in used {
                if let Some(Some(number)) = members.numbers.get(*other) {
                    uses.push(*number)?;
                }
            }
        }
        out.push(uses)?;
    }
    Ok(out)
}

/// The candidates of each layer, from the first.
pub(crate) fn layered(
    alloc: Global,
    candidates: &[Candidate],
    needs: &Needs,
) -> Result<Vec<Vec<usize>>, Memory> {
    let members = members_of(alloc, candidates, needs)?;
    let uses = uses_of_members(alloc, needs, &members)?;
    let layers = layers(alloc, &uses)?;
    let mut out: Vec<Vec<usize>> = Vec::new(alloc);
    for layer in 0..members.places.len() {
        let mut group = Vec::new(alloc);
        for (place, found) in members.places.iter().zip(&layers) {
            if *found == layer {
                group.push(*place)?;
            }
        }
        if !group.is_empty() {
            out.push(group)?;
        }
    }
    Ok(out)
}

/// The steps in which candidates stand, by the numbers of citable steps: rising, and each once.
pub(crate) fn cited_steps(
    alloc: Global,
    candidates: &[Candidate],
    homes: &[Option<usize>],
    uses: &[usize],
) -> Result<Vec<usize>, Memory> {
    let mut steps = Vec::new(alloc);
    for place in uses {
        let step = match candidates.get(*place) {
            Some(candidate) => match candidate.origin {
                Origin::Known(step) => Some(step),
                Origin::Found => homes.get(*place).copied().flatten(),
            },
            None => None,
        };
        if let Some(step) = step
            && !steps.contains(&step)
        {
            steps.push(step)?;
        }
    }
    steps.sort()?;
    Ok(steps)
}

/// What all candidates of a layer use.
pub(crate) fn uses_of_layer(
    alloc: Global,
    needs: &Needs,
    layer: &[usize],
) -> Result<Vec<usize>, Memory> {
    let mut out = Vec::new(alloc);
    for place in layer {
        if let Some(Some(uses)) = needs.uses.get(*place) {
            out.extend_from_slice(uses)?;
        }
    }
    Ok(out)
}

/// A copy of a phrase.
fn copied(alloc: Global, phrase: &Phrase) -> Result<Phrase, Memory> {
    Ok(Phrase {
        text: Vec::from_slice(alloc, &phrase.text)?,
        shape: phrase.shape,
    })
}

/// The equation of which two cubes are the halves, where they are.
fn equation(
    alloc: Global,
    writer: &ClauseWriter<'_>,
    one: &Cube,
    other: &Cube,
) -> Result<Option<Phrase>, Memory> {
    match writer.joined(alloc, one, other) {
        Ok(phrase) => Ok(phrase),
        Err(ClauseFault::Unsaid) => Ok(None),
        Err(ClauseFault::Memory) => Err(Memory),
    }
}

/// The first candidate from a place on that isn't taken and makes an equation with the cube, and the equation.
fn other_half(
    alloc: Global,
    writer: &ClauseWriter<'_>,
    cube: &Cube,
    group: &[&Candidate],
    from: usize,
    taken: &[bool],
) -> Result<Option<(usize, Phrase)>, Memory> {
    for (number, candidate) in group.iter().enumerate() {
        if number >= from
            && taken.get(number) == Some(&false)
            && let Some(other) = &candidate.cube
            && let Some(phrase) = equation(alloc, writer, cube, other)?
        {
            return Ok(Some((number, phrase)));
        }
    }
    Ok(None)
}

/// The clause of a candidate from a place on, with its other half if there is one, which is taken then.
fn clause_at(
    alloc: Global,
    writer: &ClauseWriter<'_>,
    candidate: &Candidate,
    group: &[&Candidate],
    from: usize,
    taken: &mut [bool],
) -> Result<Phrase, Memory> {
    let half = match &candidate.cube {
        Some(cube) => other_half(alloc, writer, cube, group, from, taken)?,
        None => None,
    };
    let Some((other, phrase)) = half else {
        return copied(alloc, &candidate.phrase);
    };
    if let Some(mark) = taken.get_mut(other) {
        *mark = true;
    }
    Ok(phrase)
}

/// The clauses of candidates; two that are the halves of an equation are one.
fn clauses(
    alloc: Global,
    writer: &ClauseWriter<'_>,
    group: &[&Candidate],
) -> Result<Vec<Phrase>, Memory> {
    let mut out = Vec::new(alloc);
    let mut taken = vec![in alloc; false; group.len()]?;
    for (number, candidate) in group.iter().enumerate() {
        if taken.get(number) == Some(&false) {
            let from = number.saturating_add(1);
            out.push(clause_at(alloc, writer, candidate, group, from, &mut taken)?)?;
        }
    }
    Ok(out)
}

/// The candidates at some places.
fn at_places<'c>(
    alloc: Global,
    candidates: &'c [Candidate],
    places: &[usize],
) -> Result<Vec<&'c Candidate>, Memory> {
    let mut out = Vec::with_capacity(alloc, places.len())?;
    for place in places {
        if let Some(candidate) = candidates.get(*place) {
            out.push(candidate)?;
        }
    }
    Ok(out)
}

/// What the candidates at some places claim together.
pub(crate) fn joint_claim(
    alloc: Global,
    candidates: &[Candidate],
    places: &[usize],
) -> Result<Form, Memory> {
    let mut parts = Vec::with_capacity(alloc, places.len())?;
    for place in places {
        if let Some(candidate) = candidates.get(*place) {
            parts.push(candidate.form.copy(alloc)?)?;
        }
    }
    Ok(Form::And(parts))
}

/// The names of the steps with these numbers behind `using`; nothing where there are none.
pub(crate) fn citation(
    alloc: Global,
    steps: &[Citable],
    cited: &[usize],
) -> Result<Vec<u8>, Memory> {
    let mut out = Vec::new(alloc);
    for number in cited {
        if let Some(step) = steps.get(*number) {
            let lead = if out.is_empty() { "using " } else { ", " };
            push_text(&mut out, lead.as_bytes())?;
            push_text(&mut out, step.name.as_bytes())?;
        }
    }
    Ok(out)
}

/// The text of the step with a name whose claim is the conjunction of candidates.
pub(crate) fn step_text(
    alloc: Global,
    writer: &ClauseWriter<'_>,
    candidates: &[Candidate],
    layer: &[usize],
    name: &str,
    citation: Vec<u8>,
) -> Result<Vec<u8>, Memory> {
    let group = at_places(alloc, candidates, layer)?;
    let clauses = clauses(alloc, writer, &group)?;
    let mut out = Sentence::behind(alloc, 0);
    let head = format!(in alloc; "invariant {name}:")?;
    out.push_unit(head.as_bytes())?;
    if citation.is_empty() {
        out.push_clauses(&clauses, b";")?;
    } else {
        out.push_clauses(&clauses, b"")?;
        let mut last = citation;
        push_text(&mut last, b";")?;
        out.push_unit(&last)?;
    }
    let mut text = out.text();
    push_text(&mut text, b"\n")?;
    Ok(text)
}
