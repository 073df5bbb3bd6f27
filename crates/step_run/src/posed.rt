//! The conditions of a script.

ghost use Rattle.std.specs.Prelude.{◌≡◌, ◌≤◌, length, IfOk};
ghost use Rattle.st_outside.specs.Faults.{NoneFell};
ghost use Rattle.step_plan.specs.Outcome.{ended_view, IsDecided};
ghost use Rattle.step_plan.specs.Stage.{Comes, Settles, IfOn};
ghost use Rattle.step_run.specs.Source.{IsSpelled};
ghost use Rattle.step_run.specs.Views.{source_view, scripted_view, posed_view};
ghost use Rattle.step_run.specs.Ready.{IsReady};
ghost use Rattle.step_run.specs.Plans.{posed_of_text, conditions_plan};
ghost use Rattle.step_run.specs.Posing.{IsPassed, obliged_in};
ghost use Rattle.step_run.specs.Known.{IsKnown};

use crate::scripted::{Scripted, ask_script, scripted_of_text};
use crate::source::Source;
use obligations::{ObligationFault, conditions_of};
use proof_script::laws::{scripts_are_over, scripts_are_proofs};
use script_bounds::laws::over_is_written;
use st_form::Condition;
use st_memory::Memory;
use st_outside::Files;
use st_tokens::LimitKind;
use std::alloc::Global;
use step_plan::{End, Ended, Stage, end};
use temporal_goals::Script;

/// A program, its script, and the script's conditions.
#[derive(Drop)]
pub struct Posed {
    pub source: Source,
    pub script: Script,
    pub conditions: Vec<Condition>,
}

/// The end of a run whose conditions pass a limit.
fn passed(alloc: Global, fault: ObligationFault) -> Result<Ended, Memory>
    ensures outcome { IfOk result (λ e. IsPassed fault (ended_view e)) }
    ensures decided { IfOk result (λ e. IsDecided e.status) }
{
    match fault {
        ObligationFault::TooMany(_) => end(alloc, End::Limit(LimitKind::Conditions)),
        ObligationFault::TooWide(_) => end(alloc, End::Limit(LimitKind::Atoms)),
        ObligationFault::TooHeavy(_) => end(alloc, End::Limit(LimitKind::Weight)),
        ObligationFault::Memory => Err(Memory),
    }
}

/// The conditions of a script, or the run's end where they pass a limit.
fn obliged(alloc: Global, scripted: Scripted) -> Result<Stage<Posed>, Memory>
    requires { IsKnown scripted }
    ensures settles { IfOk result (Settles posed_view (obliged_in (scripted_view scripted))) }
    ensures ready { IfOk result (λ s. IfOn s IsReady) }
{
    scripts_are_proofs();
    scripts_are_over();
    over_is_written();
    let Scripted {
        source,
        fts,
        script,
    } = scripted;
    match conditions_of(alloc, &source.program, &fts, &script) {
        Ok(conditions) => Ok(Stage::On(Posed {
            source,
            script,
            conditions,
        })),
        Err(fault) => Ok(Stage::Over(passed(alloc, fault)?)),
    }
}

/// The conditions of the script that a text spells over a program, or the run's end.
pub fn posed_of_text(alloc: Global, source: Source, text: &[u8]) -> Result<Stage<Posed>, Memory>
    requires short { length text.now ≤ 4194304 }
    requires spelled { IsSpelled (source_view source) }
    ensures settles { IfOk result (Settles posed_view (posed_of_text (source_view source) text.now)) }
    ensures ready { IfOk result (λ s. IfOn s IsReady) }
{
    match scripted_of_text(alloc, source, text)? {
        Stage::On(scripted) => obliged(alloc, scripted),
        Stage::Over(ended) => Ok(Stage::Over(ended)),
    }
}

/// Reads the program's file and the proof's, and generates the conditions.
pub fn ask_conditions<F: Files>(
    alloc: Global,
    files: &mut F,
    program: &str,
    proof: &str,
) -> Result<Stage<Posed>, Memory>
    ensures comes { IfOk result (Comes posed_view (F.told files.old) (F.faults files.old) (F.faults files.new) (conditions_plan program.now proof.now)) }
    ensures ready { IfOk result (λ s. IfOn s IsReady) }
    ensures same { F.told files.new ≡ F.told files.old }
    ensures later { NoneFell (F.faults files.old) (F.faults files.new) }
{
    match ask_script(alloc, files, program, proof)? {
        Stage::On(scripted) => obliged(alloc, scripted),
        Stage::Over(ended) => Ok(Stage::Over(ended)),
    }
}
