//! Levels as the rule that they are: a formula for each, from the highest on.

use clause_texts::{ClauseFault, ClauseWriter, Phrase, Sentence, Shape};
use control_cubes::{Cube, CubeFault};
use st_memory::Memory;
use std::alloc::Global;
use step_report::push_text;
use waiting_search::{Level, Levels};

/// How the operators of a formula bind, as far as its text says.
fn shape_of(text: &[u8]) -> Shape {
    let binds_less = text.windows(2).any(|pair| pair == b"\\/".as_slice()
        || pair == b"->".as_slice());
    if binds_less {
        Shape::Disjunction
    } else {
        Shape::Conjunction
    }
}

/// A formula as it was written.
fn written(alloc: Global, text: &[u8]) -> Result<Phrase, Memory> {
    Ok(Phrase {
        text: Vec::from_slice(alloc, text)?,
        shape: shape_of(text),
    })
}

/// The equation of which the cube with a number and one behind it that isn't taken are the halves, with the number of that one.
fn equation(
    alloc: Global,
    writer: &ClauseWriter<'_>,
    cubes: &[Cube],
    cube: &Cube,
    number: usize,
    taken: &[bool],
) -> Result<Option<(usize, Phrase)>, ClauseFault> {
    for (place, other) in cubes.iter().enumerate() {
        if place > number
            && taken.get(place) == Some(&false)
            && let Some(phrase) = writer.joined(alloc, cube, other)?
        {
            return Ok(Some((place, phrase)));
        }
    }
    Ok(None)
}

/// The clause of the cube with a number, or the equation of which it is a half; then the other half is taken.
fn clause_at(
    alloc: Global,
    writer: &ClauseWriter<'_>,
    cubes: &[Cube],
    cube: &Cube,
    number: usize,
    taken: &mut [bool],
) -> Result<Phrase, ClauseFault> {
    let Some((other, phrase)) = equation(alloc, writer, cubes, cube, number, taken)? else {
        return writer.clause(alloc, cube);
    };
    if let Some(mark) = taken.get_mut(other) {
        *mark = true;
    }
    Ok(phrase)
}

/// The clauses of cubes; two that are the halves of an equation are one.
fn clauses(
    alloc: Global,
    writer: &ClauseWriter<'_>,
    cubes: &[Cube],
) -> Result<Vec<Phrase>, ClauseFault> {
    let mut out = Vec::new(alloc);
    let mut taken = vec![in alloc; false; cubes.len()]?;
    for (number, cube) in cubes.iter().enumerate() {
        if taken.get(number) == Some(&false) {
            out.push(clause_at(alloc, writer, cubes, cube, number, &mut taken)?)?;
        }
    }
    Ok(out)
}

/// What a level says: the formula of the claim with this text, and the clauses of its cubes. Where it excludes every state, that is all.
fn phrases(
    alloc: Global,
    writer: &ClauseWriter<'_>,
    text: &[u8],
    level: &Level,
) -> Result<Vec<Phrase>, ClauseFault> {
    let mut clauses = clauses(alloc, writer, &level.cubes)?;
    if clauses
        .iter()
        .any(|clause| clause.text.as_slice() == b"false".as_slice())
    {
        let never = written(alloc, b"false")?;
        return Ok(vec![in alloc; never]?);
    }
    let mut out = Vec::new(alloc);
    if clauses.is_empty() || text != b"true".as_slice() {
        out.push(written(alloc, text)?)?;
    }
    out.append(&mut clauses)?;
    Ok(out)
}

/// Appends what all levels say, behind `by`.
fn push_levels(
    alloc: Global,
    writer: &ClauseWriter<'_>,
    texts: &[Vec<u8>],
    levels: &Levels,
    out: &mut Sentence,
) -> Result<(), ClauseFault> {
    let last = levels.levels.len().saturating_sub(1);
    for (number, (level, text)) in levels.levels.iter().zip(texts).enumerate() {
        let phrases = phrases(alloc, writer, text, level)?;
        let tail = if number == last {
            b"".as_slice()
        } else {
            b",".as_slice()
        };
        out.push_clauses(&phrases, tail)?;
    }
    Ok(())
}

/// The rule as it stands behind a claim, on lines of its own; `None` where a place that is to be said has no label.
pub(crate) fn rule_text(
    alloc: Global,
    writer: &ClauseWriter<'_>,
    texts: &[Vec<u8>],
    levels: &Levels,
) -> Result<Option<Vec<u8>>, CubeFault> {
    let head = b"\n  by".as_slice();
    let mut out = Sentence::behind(alloc, head.len().saturating_sub(1));
    match push_levels(alloc, writer, texts, levels, &mut out) {
        Ok(()) => {}
        Err(ClauseFault::Unsaid) => return Ok(None),
        Err(ClauseFault::Memory) => return Err(CubeFault::Memory),
    }
    let mut text = Vec::from_slice(alloc, head)?;
    push_text(&mut text, &out.text())?;
    Ok(Some(text))
}

/// The claim itself as a rule, as far as a run is judged by it.
pub(crate) fn plain_rule(alloc: Global, texts: &[Vec<u8>]) -> Result<Vec<u8>, Memory> {
    let mut out = Vec::new(alloc);
    let mut lead = b" by ".as_slice();
    for text in texts {
        push_text(&mut out, lead)?;
        push_text(&mut out, text)?;
        lead = b", ".as_slice();
    }
    push_text(&mut out, b";")?;
    Ok(out)
}
