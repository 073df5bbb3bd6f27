//! A schedule played, and the last goal of a script judged on the run.

ghost use Rattle.std.specs.Prelude.{◌≡◌, ◌↔◌, ◌≤◌, ◌<◌, ◌^◌, true, List, length, map, IfOk};
ghost use Rattle.std.specs.List.{All};
ghost use Rattle.st_form.specs.Formula.{Situation};
ghost use Rattle.st_form.specs.declared.conditions.TransName.{TransName};
ghost use Rattle.st_program.specs.Plain.{plain_children};
ghost use Rattle.observations.specs.Observation.{Observation};
ghost use Rattle.spl_semantics.specs.Data.{StoreFits};
ghost use Rattle.spl_semantics.specs.Runs as runs;
ghost use Rattle.spl_semantics.specs.Observed.{observed};
ghost use Rattle.temporal_goals.specs.Plain.{plain_step};
ghost use Rattle.temporal_goals.specs.Texts.{PlainGoal};
ghost use Rattle.schedule_reader.specs.Schedules.{plain_schedule};
ghost use Rattle.schedule_reader.specs.Values.{IsWritten};
ghost use Rattle.trace_player.specs.Playing.{IsPlayed};
ghost use Rattle.trace_player.specs.Judgements.{JudgedOn};
ghost use Rattle.played_goals.specs.Failures.{FailsOn};
ghost use Rattle.posed_conditions.specs.Translated.{IsTranslated, typed_of};
ghost use Rattle.refuted_goals.specs.Refuted.{LastFails, FailsBy};

use posed_conditions::TranslatedProgram;
use run_judging::Judged;
use schedule_reader::Schedule;
use st_memory::Memory;
use st_program::Program;
use std::alloc::Global;
use temporal_goals::Step;
use trace_player::{PlayFault, Played, judge, play};

/// Whether a goal fails of which this is judged.
fn is_failure(judged: Judged) -> bool
    ensures { (goal : PlainGoal) (o : Observation Situation) → JudgedOn goal o judged → (result ≡ true) ↔ FailsOn goal o }
{
    match judged {
        Judged::Holds => false,
        Judged::Fails(_) => true,
        Judged::Unclear(_) => false,
    }
}

/// Whether the last goal fails on what was played.
fn last_fails(
    alloc: Global,
    program: &Program,
    played: &Played,
    steps: &[Step],
) -> Result<bool, Memory>
    requires few { length played.now.enabled.items < 2 ^ 32 }
    requires long { length played.now.states.items ≡ length played.now.enabled.items }
    ensures { IfOk result (λ b. (s : runs.State) (later : List (TransName × runs.State)) → IsPlayed (plain_children program.now.processes) s later played.now
        → (b ≡ true) ↔ LastFails (map plain_step steps.now) (observed (plain_children program.now.processes) s later)) }
{
    match steps.last() {
        Some(step) => {
            let judged = judge(alloc, program, played, &step.goal)?;
            Ok(is_failure(judged))
        }
        None => Ok(false),
    }
}

/// Whether the schedule gives a run on which the last goal fails.
pub(crate) fn fails_by(
    alloc: Global,
    source: &TranslatedProgram,
    steps: &[Step],
    schedule: &Schedule,
) -> Result<bool, Memory>
    requires translated { IsTranslated source.now }
    requires store { StoreFits source.now.program.variables schedule.now.store.items }
    requires written { All IsWritten schedule.now.store.items }
    requires few { length schedule.now.moves.items ≤ 1000 }
    ensures { IfOk result (λ b. (b ≡ true) ↔ FailsBy (typed_of source.now) (map plain_step steps.now) (plain_schedule schedule.now)) }
{
    match play(alloc, &source.program, schedule) {
        Ok(played) => last_fails(alloc, &source.program, &played, steps),
        Err(PlayFault::NoStart) => Ok(false),
        Err(PlayFault::ValueLimit(_)) => Ok(false),
        Err(PlayFault::Illegal(_)) => Ok(false),
        Err(PlayFault::Memory) => Err(Memory),
    }
}
