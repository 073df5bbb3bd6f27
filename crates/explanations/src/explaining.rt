//! All open conditions of a proof over a program, explained.

ghost use Rattle.std.specs.Prelude.{◌≡◌, IfOk, IfSome, None, length, map, take};
ghost use Rattle.discharge.specs.Marked.{place_of};
ghost use Rattle.open_conditions.specs.Open.{AreOpen};
ghost use Rattle.unclosed_conditions.specs.Unclosed.{LeavesOut};
ghost use Rattle.posed_conditions.specs.Translated.{IsOfText, IsTranslated};
ghost use Rattle.posed_conditions.specs.Posed.{IsPosed, IsPosedBy};
ghost use Rattle.explanations.specs.Explained.{AllStand, IsExplained, name_of, named_in, number_in, number_of, open_places, setting_of};
ghost use Rattle.explanations.specs.Refused.{AreRefused};

use crate::sources::{Places, Sources, Texts, number, posed, raw_program};
use posed_conditions::PosedProof;
use program_words::vocabulary;
use proof_reports::{Failure, Report};
use source_lines::Lines;
use source_places::{statement_places, step_places};
use spl_parser::RawProgram;
use st_memory::Memory;
use st_outside::Gate;
use std::alloc::Global;
use unclosed_conditions::{Undecided, unclosed_conditions};

/// The version of the form of reports.
pub(crate) const SCHEMA: &str = "milkhour.verify/1";

/// The first so many.
fn first(left: &[Undecided], limit: usize) -> &[Undecided]
    ensures { result.now ≡ take limit left.now }
{
    left.get(..limit).unwrap_or(left)
}

/// Open conditions, each explained by the verdict on it.
fn failures(
    alloc: Global,
    sources: &Sources<'_>,
    left: &[Undecided],
) -> Result<Vec<Failure>, Memory>
    requires { AllStand sources.now.posed.now left.now }
    ensures { IfOk result (λ v. map number_in v.items ≡ map number_of left.now) }
{
    let mut out = Vec::new(alloc);
    for undecided in left {
        out.push(sources.failure(alloc, undecided)?)?;
    }
    Ok(out)
}

/// The numbers of conditions.
fn numbers(alloc: Global, left: &[Undecided]) -> Result<Vec<u64>, Memory>
    ensures { IfOk result (λ v. v.items ≡ map number_of left.now) }
{
    let mut out = Vec::new(alloc);
    for undecided in left {
        out.push(number(undecided))?;
    }
    Ok(out)
}

/// The report of a proof in which these conditions are open.
fn report(
    alloc: Global,
    sources: &Sources<'_>,
    left: &[Undecided],
    limit: usize,
) -> Result<Report, Memory>
    requires { AllStand sources.now.posed.now left.now }
    ensures conditions { IfOk result (λ r. r.conditions ≡ length sources.now.posed.now.conditions.items) }
    ensures numbers { IfOk result (λ r. r.numbers.items ≡ map number_of left.now) }
    ensures failing { IfOk result (λ r. r.failing ≡ length left.now) }
    ensures first { IfOk result (λ r. map number_in r.failures.items ≡ map number_of (take limit left.now)) }
    ensures steps { IfOk result (λ r. map named_in r.steps.items ≡ map name_of sources.now.posed.now.script.steps.items) }
{
    let texts = &sources.texts;
    Ok(Report {
        schema: String::from_str(alloc, SCHEMA)?,
        status: if left.is_empty() { 0 } else { 1 },
        headline: String::new(alloc),
        program: String::from_str(alloc, texts.program_name)?,
        proof: String::from_str(alloc, texts.proof_name)?,
        conditions: sources.posed.conditions.len() as u64,
        failing: left.len() as u64,
        numbers: numbers(alloc, left)?,
        steps: sources.steps_with(alloc, left)?,
        failures: failures(alloc, sources, first(left, limit))?,
    })
}

/// Where things stand in two texts.
fn places(alloc: Global, texts: &Texts<'_>, raw: &RawProgram<'_>) -> Result<Places, Memory> {
    Ok(Places {
        statements: statement_places(alloc, texts.program, raw)?,
        steps: step_places(alloc, texts.proof)?,
    })
}

/// The report of what is posed, in which these conditions are open.
fn reported(
    alloc: Global,
    texts: &Texts<'_>,
    raw: &RawProgram<'_>,
    posed: &PosedProof,
    left: &[Undecided],
    limit: usize,
) -> Result<Report, Memory>
    requires translated { IsTranslated posed.now.source }
    requires stand { AllStand posed.now.proof left.now }
    ensures conditions { IfOk result (λ r. r.conditions ≡ length posed.now.proof.conditions.items) }
    ensures numbers { IfOk result (λ r. r.numbers.items ≡ map number_of left.now) }
    ensures failing { IfOk result (λ r. r.failing ≡ length left.now) }
    ensures first { IfOk result (λ r. map number_in r.failures.items ≡ map number_of (take limit left.now)) }
    ensures steps { IfOk result (λ r. map named_in r.steps.items ≡ map name_of posed.now.proof.script.steps.items) }
{
    let program = Lines::new(alloc, texts.program)?;
    let proof = Lines::new(alloc, texts.proof)?;
    let places = places(alloc, texts, raw)?;
    let source = &posed.source;
    let words = vocabulary(alloc, source, &raw.processes, &program, &places.statements)?;
    let sources = Sources {
        texts: *texts,
        program: &program,
        proof: &proof,
        places: &places,
        words: &words,
        source,
        posed: &posed.proof,
    };
    report(alloc, &sources, left, limit)
}

/// The conditions of what is posed that neither search closes.
fn open_of<G: Gate>(alloc: Global, gate: &G, posed: &PosedProof) -> Result<Vec<Undecided>, Memory>
    requires translated { IsTranslated posed.now.source }
    requires posed { IsPosed posed.now.source posed.now.proof }
    ensures left { IfOk result (λ v. LeavesOut (setting_of posed.now.source) posed.now.proof.conditions.items (open_places posed.now.source posed.now.proof) (map place_of v.items)) }
    ensures right { IfOk result (λ v. AreOpen (setting_of posed.now.source) posed.now.proof.conditions.items v.items) }
{
    let source = &posed.source;
    let variables = source.program.variables.as_slice();
    unclosed_conditions(
        alloc,
        gate,
        &source.components,
        variables,
        &posed.proof.conditions,
    )
}

/// The report of what is posed by two texts, all conditions decided.
fn decided<G: Gate>(
    alloc: Global,
    gate: &G,
    texts: &Texts<'_>,
    raw: &RawProgram<'_>,
    posed: &PosedProof,
    limit: usize,
) -> Result<Report, Memory>
    requires of { IsOfText texts.now.program.now posed.now.source }
    requires by { IsPosedBy texts.now.proof.now posed.now.source posed.now.proof }
    ensures { IfOk result (IsExplained texts.now.program.now texts.now.proof.now limit) }
{
    let left = open_of(alloc, gate, posed)?;
    reported(alloc, texts, raw, posed, &left, limit)
}

/// What is told of a proof that isn't proved: its steps, the numbers of all conditions that neither search closes, and the first so
/// many of them explained. The gate is told of each condition that the first search decides. `None` where one of the texts is refused.
pub fn explain<G: Gate>(
    alloc: Global,
    gate: &G,
    texts: &Texts<'_>,
    limit: usize,
) -> Result<Option<Report>, Memory>
    ensures told { IfOk result (λ o. IfSome o (IsExplained texts.now.program.now texts.now.proof.now limit)) }
    ensures refused { IfOk result (λ o. o ≡ None → AreRefused texts.now.program.now texts.now.proof.now) }
{
    let Some(raw) = raw_program(alloc, texts.program)? else {
        return Ok(None);
    };
    match posed(alloc, texts)? {
        Some(posed) => Ok(Some(decided(alloc, gate, texts, &raw, &posed, limit)?)),
        None => Ok(None),
    }
}
