//! Steps that no goal needs. Which steps of a proof are goals the language doesn't say: the words name them, and the rest is there for
//! their sake.

ghost use Rattle.std.specs.Prelude.{IfOk};
ghost use Rattle.temporal_goals.specs.Plain.{plain_script};
ghost use Rattle.posed_conditions.specs.Translated.{IsTranslated};
ghost use Rattle.posed_conditions.specs.Posed.{IsPosed};
ghost use Rattle.cited_steps.specs.Needed.{AreUnneeded};

use crate::accepted::warning;
use crate::asking::posed;
use crate::lemmas::steps;
use crate::names::nearest;
use crate::source::{Source, TextFile, word_of};
use cited_steps::unneeded_steps;
use posed_conditions::PosedProof;
use proof_reports::Fault;
use proof_script::laws::scripts_cite_invariances;
use source_places::step_places;
use st_memory::Memory;
use std::alloc::Global;

/// Why names of goals are refused: the first that is no step's, and a near one.
pub fn goals_refused(
    alloc: Global,
    proof: TextFile,
    goals: &str,
) -> Result<Option<String>, Memory> {
    let source = Source::new(alloc, proof)?;
    let mut names = Vec::new(alloc);
    for token in &steps(alloc, &source)? {
        names.push(word_of(token))?;
    }
    for goal in goals.split(',') {
        let goal = goal.trim();
        if names.iter().all(|name| *name != goal) {
            return Ok(Some(no_step(alloc, goal, &names)?));
        }
    }
    Ok(None)
}

/// Says that no step has a name.
fn no_step(alloc: Global, goal: &str, names: &[&str]) -> Result<String, Memory> {
    Ok(match nearest(alloc, goal, names)? {
        Some(near) => format!(in alloc;
            "--goals: no step is called '{goal}'; did you mean '{near}'?"
        )?,
        None => format!(in alloc; "--goals: no step is called '{goal}'")?,
    })
}

/// The numbers of the steps that are named.
fn numbers_of(alloc: Global, posed: &PosedProof, goals: &str) -> Result<Vec<usize>, Memory> {
    let mut out = Vec::new(alloc);
    for (number, step) in posed.proof.script.steps.iter().enumerate() {
        if goals
            .split(',')
            .any(|goal| goal.trim() == step.name.as_str())
        {
            out.push(number)?;
        }
    }
    Ok(out)
}

/// The numbers of the steps that none of these needs.
fn unneeded(alloc: Global, posed: &PosedProof, goals: &[usize]) -> Result<Vec<usize>, Memory>
    requires translated { IsTranslated posed.now.source }
    requires posed { IsPosed posed.now.source posed.now.proof }
    ensures { IfOk result (λ v. AreUnneeded (plain_script posed.now.proof.script) goals.now v.items) }
{
    scripts_cite_invariances();
    unneeded_steps(alloc, &posed.proof.script.steps, goals)
}

/// A warning for each step that is no goal and that no goal needs, through what is cited; none where the texts are refused.
pub fn uncited(
    alloc: Global,
    program: TextFile,
    proof: TextFile,
    goals: &str,
) -> Result<Vec<Fault>, Memory> {
    let mut out = Vec::new(alloc);
    let Some(posed) = posed(alloc, program.text, proof.text)? else {
        return Ok(out);
    };
    let numbers = numbers_of(alloc, &posed, goals)?;
    let unneeded = unneeded(alloc, &posed, &numbers)?;
    let source = Source::new(alloc, proof)?;
    for (number, step) in step_places(alloc, proof.text)?.iter().enumerate() {
        if unneeded.contains(&number) {
            out.push(warning(
                alloc,
                &source,
                step.name,
                "Uncited",
                "no goal needs this step",
                "leave it out, or cite it by `using`, or name it a goal by `--goals`",
            )?)?;
        }
    }
    Ok(out)
}
