//! The steps of a proof that is proved. Its conditions are counted and not made: making them takes longer than all else that is told. The
//! program is read once: of its names a table of steps has those of variables alone, in bounds, so its statements aren't looked for.

ghost use Rattle.std.specs.Prelude.{◌≡◌, IfOk, IfSome, None, Ok, []};
ghost use Rattle.transition_system.specs.Plain.{plain_system};
ghost use Rattle.temporal_goals.specs.Plain.{plain_script};
ghost use Rattle.proof_script.specs.Script.{script_spelled};
ghost use Rattle.posed_conditions.specs.Translated.{IsOfText};
ghost use Rattle.explanations.specs.Explained.{IsOutlined};
ghost use Rattle.explanations.specs.Refused.{AreRefused};

use crate::explaining::SCHEMA;
use crate::sources::{Texts, spelled, translated};
use crate::steps::{Steps, step_reports};
use condition_counts::condition_counts;
use posed_conditions::TranslatedProgram;
use program_words::vocabulary;
use proof_reports::{Report, StepReport};
use source_lines::Lines;
use source_places::step_places;
use st_memory::Memory;
use std::alloc::Global;
use temporal_goals::Script;

/// The report of a proof with these steps, in which nothing is open.
fn outline_of(
    alloc: Global,
    texts: &Texts<'_>,
    conditions: u64,
    steps: Vec<StepReport>,
) -> Result<Report, Memory>
    ensures conditions { IfOk result (λ r. r.conditions ≡ conditions) }
    ensures steps { IfOk result (λ r. r.steps.items ≡ steps.items) }
    ensures none { IfOk result (λ r. r.numbers.items ≡ []) }
    ensures failing { IfOk result (λ r. r.failing ≡ 0) }
    ensures unexplained { IfOk result (λ r. r.failures.items ≡ []) }
{
    Ok(Report {
        schema: String::from_str(alloc, SCHEMA)?,
        status: 0,
        headline: String::new(alloc),
        program: String::from_str(alloc, texts.program_name)?,
        proof: String::from_str(alloc, texts.proof_name)?,
        conditions,
        failing: 0,
        numbers: Vec::new(alloc),
        steps,
        failures: Vec::new(alloc),
    })
}

/// The report of a script whose conditions are counted and not made.
fn outlined(
    alloc: Global,
    texts: &Texts<'_>,
    source: &TranslatedProgram,
    script: &Script,
) -> Result<Report, Memory>
    requires of { IsOfText texts.now.program.now source.now }
    requires by { script_spelled source.now.names (plain_system source.now.system) texts.now.proof.now ≡ Ok (plain_script script.now) }
    ensures { IfOk result (IsOutlined texts.now.program.now texts.now.proof.now) }
{
    let program = Lines::new(alloc, texts.program)?;
    let proof = Lines::new(alloc, texts.proof)?;
    let places = step_places(alloc, texts.proof)?;
    let words = vocabulary(alloc, source, &[], &program, &[])?;
    let counts = condition_counts(alloc, &source.system, &script.steps)?;
    let told = Steps {
        text: texts.proof,
        lines: &proof,
        places: &places,
        words: &words,
        steps: &script.steps,
    };
    let steps = step_reports(alloc, &told, &counts.steps, &[])?;
    outline_of(alloc, texts, counts.all, steps)
}

/// The same of the proof over a program that was read.
fn outline_over(
    alloc: Global,
    texts: &Texts<'_>,
    source: &TranslatedProgram,
) -> Result<Option<Report>, Memory>
    requires { IsOfText texts.now.program.now source.now }
    ensures told { IfOk result (λ o. IfSome o (IsOutlined texts.now.program.now texts.now.proof.now)) }
    ensures refused { IfOk result (λ o. o ≡ None → AreRefused texts.now.program.now texts.now.proof.now) }
{
    match spelled(alloc, source, texts.proof)? {
        Some(script) => Ok(Some(outlined(alloc, texts, source, &script)?)),
        None => Ok(None),
    }
}

/// What is told of a proof that is proved: its steps and how many conditions they have. No condition is made. `None` where one of the texts
/// is refused.
pub fn outline(alloc: Global, texts: &Texts<'_>) -> Result<Option<Report>, Memory>
    ensures told { IfOk result (λ o. IfSome o (IsOutlined texts.now.program.now texts.now.proof.now)) }
    ensures refused { IfOk result (λ o. o ≡ None → AreRefused texts.now.program.now texts.now.proof.now) }
{
    match translated(alloc, texts.program)? {
        Some(source) => outline_over(alloc, texts, &source),
        None => Ok(None),
    }
}
