//! The program and the proof of a run: the program as a system, and a script over it.

ghost use Rattle.std.specs.Prelude.{◌≡◌, ◌<◌, ◌≤◌, ◌^◌, length, IfOk};
ghost use Rattle.st_outside.specs.Faults.{NoneFell};
ghost use Rattle.transition_system.specs.Plain.{plain_system};
ghost use Rattle.temporal_goals.specs.Plain.{plain_script};
ghost use Rattle.step_plan.specs.Stage.{Comes, Settles, IfOn};
ghost use Rattle.step_run.specs.Source.{IsSpelled};
ghost use Rattle.step_run.specs.Conditions.{system_of};
ghost use Rattle.step_run.specs.Views.{source_view, scripted_view};
ghost use Rattle.step_run.specs.Plans.{script_of_text, scripted_of_text, scripted_plan};
ghost use Rattle.step_run.specs.Posing.{IsScript};
ghost use Rattle.step_run.specs.Known.{IsKnown};

use crate::ends::proof_refused;
use crate::refusals::Refusal;
use crate::source::{Source, ask_source};
use proof_script::read_script;
use spl_translation::translate;
use st_memory::Memory;
use st_outside::Files;
use std::alloc::Global;
use step_plan::{FileRole, Stage, ask};
use temporal_goals::Script;
use transition_system::Fts;

/// A program, its system, and a script over it.
#[derive(Drop)]
pub struct Scripted {
    pub source: Source,
    pub fts: Fts,
    pub script: Script,
}

/// The script that a text spells over a program, or the run's end.
fn script_of_text(
    alloc: Global,
    source: &Source,
    fts: &Fts,
    text: &[u8],
) -> Result<Stage<Script>, Memory>
    requires short { length text.now < 2 ^ 32 }
    requires system { plain_system fts.now ≡ system_of (source_view source.now) }
    ensures settles { IfOk result (Settles plain_script (script_of_text (source_view source.now) text.now)) }
    ensures script { IfOk result (λ s. IfOn s (λ script. IsScript (source_view source.now) (plain_script script))) }
{
    match read_script(alloc, text, &source.names, fts) {
        Ok(script) => Ok(Stage::On(script)),
        Err(fault) => Ok(Stage::Over(proof_refused(alloc, Refusal::from(fault))?)),
    }
}

/// The script that a text spells over a program, with the program and its system, or the run's end.
pub fn scripted_of_text(
    alloc: Global,
    source: Source,
    text: &[u8],
) -> Result<Stage<Scripted>, Memory>
    requires short { length text.now ≤ 4194304 }
    requires spelled { IsSpelled (source_view source) }
    ensures settles { IfOk result (Settles scripted_view (scripted_of_text (source_view source) text.now)) }
    ensures known { IfOk result (λ s. IfOn s IsKnown) }
{
    let fts = translate(alloc, &source.program)?;
    match script_of_text(alloc, &source, &fts, text)? {
        Stage::On(script) => Ok(Stage::On(Scripted {
            source,
            fts,
            script,
        })),
        Stage::Over(ended) => Ok(Stage::Over(ended)),
    }
}

/// Reads the program's file and the proof's.
pub fn ask_script<F: Files>(
    alloc: Global,
    files: &mut F,
    program: &str,
    proof: &str,
) -> Result<Stage<Scripted>, Memory>
    ensures comes { IfOk result (Comes scripted_view (F.told files.old) (F.faults files.old) (F.faults files.new) (scripted_plan program.now proof.now)) }
    ensures known { IfOk result (λ s. IfOn s IsKnown) }
    ensures same { F.told files.new ≡ F.told files.old }
    ensures later { NoneFell (F.faults files.old) (F.faults files.new) }
{
    let source = match ask_source(alloc, files, program)? {
        Stage::On(source) => source,
        Stage::Over(ended) => return Ok(Stage::Over(ended)),
    };
    match ask(alloc, files, FileRole::Proof, proof)? {
        Stage::On(text) => scripted_of_text(alloc, source, &text),
        Stage::Over(ended) => Ok(Stage::Over(ended)),
    }
}
