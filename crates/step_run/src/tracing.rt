//! A trace: the schedule of a run is read and played, and each goal of the script is judged on that run.

ghost use Rattle.std.specs.Prelude.{◌≡◌, ◌<◌, ◌≤◌, ◌^◌, suc, List, length, map, IfOk, Ok};
ghost use Rattle.st_form.specs.Plain.{plain};
ghost use Rattle.st_form.specs.declared.conditions.TransName.{TransName};
ghost use Rattle.st_program.specs.Tree.{Processes};
ghost use Rattle.temporal_goals.specs.Plain.{plain_step};
ghost use Rattle.spl_semantics.specs.Data.{store_of, StoreFits};
ghost use Rattle.spl_semantics.specs.Runs.{State};
ghost use Rattle.spl_semantics.specs.Observed.{observed};
ghost use Rattle.schedule_reader.specs.Schedules.{plain_schedule};
ghost use Rattle.schedule_reader.specs.Values.{IsWritten};
ghost use Rattle.std.specs.List.{All};
ghost use Rattle.trace_player.specs.Playing.{IsPlayed, PlayAnswers};
ghost use Rattle.trace_player.specs.Watching.{IsWhole, IsWatched};
ghost use Rattle.step_plan.specs.Outcome.{ended_view};
ghost use Rattle.step_run.specs.Judged.{all_judged};
ghost use Rattle.step_run.specs.Traced.{schedule_played, traced};
ghost use Rattle.step_run.specs.Source.{IsSpelled};
ghost use Rattle.step_run.specs.Views.{source_view, scripted_view};
ghost use Rattle.step_run.specs.Played.{IsPlayedBy};

use crate::ends::schedule_refused;
use crate::reports::shown;
use crate::scripted::Scripted;
use crate::source::Source;
use run_judging::{Judged, rounds};
use schedule_reader::laws::schedules_obey;
use schedule_reader::{Schedule, read_schedule};
use st_memory::Memory;
use std::alloc::Global;
use step_plan::{End, Ended, end};
use temporal_goals::Step;
use trace_player::{PlayFault, Played, Watched, judge_watched, play, watch};

/// What is judged of the goal of each step.
fn judged_all(
    alloc: Global,
    played: &Played,
    watched: &Watched,
    steps: &[Step],
) -> Result<Vec<Judged>, Memory>
    requires { IsWhole played.now watched.now }
    ensures { IfOk result (λ judged. (p : Processes) (s : State) (later : List (TransName × State)) → IsWatched p played.now watched.now → IsPlayed p s later played.now
        → judged.items ≡ all_judged (observed p s later) (map plain_step steps.now)) }
{
    let mut judged = Vec::new(alloc);
    for step in steps {
        judged.push(judge_watched(alloc, played, watched, &step.goal)?)?;
    }
    Ok(judged)
}

/// How many variables a program has, at most 64.
fn variable_count(source: &Source) -> u32
    requires { IsSpelled (source_view source.now) }
    ensures { result ≡ length source.now.names.variables }
{
    source.program.variables.len() as u32
}

/// The report of a run.
fn reported(
    alloc: Global,
    scripted: &Scripted,
    schedule: &Schedule,
    played: &Played,
) -> Result<Ended, Memory>
    requires spelled { IsSpelled (source_view scripted.now.source) }
    requires few { length schedule.now.moves.items ≤ 1000 }
    requires plays { IsPlayedBy (source_view scripted.now.source) (plain_schedule schedule.now) played.now }
    ensures { IfOk result (λ e. ended_view e ≡ schedule_played (scripted_view scripted.now) (plain_schedule schedule.now)) }
{
    let watched = watch(alloc, &scripted.source.program, played)?;
    let counts = rounds(alloc, &watched.course)?;
    let judged = judged_all(alloc, played, &watched, &scripted.script.steps)?;
    let mut text = Vec::new(alloc);
    step_report::played(
        &mut text,
        &scripted.source.names,
        variable_count(&scripted.source),
        &scripted.script.steps,
        schedule.moves.len() as u32,
        &counts,
        &judged,
    )?;
    Ok(shown(text))
}

/// The end that a schedule brings.
fn played(alloc: Global, scripted: &Scripted, schedule: &Schedule) -> Result<Ended, Memory>
    requires spelled { IsSpelled (source_view scripted.now.source) }
    requires store { StoreFits scripted.now.source.program.variables schedule.now.store.items }
    requires written { All IsWritten schedule.now.store.items }
    requires few { length schedule.now.moves.items ≤ 1000 }
    ensures { IfOk result (λ e. ended_view e ≡ schedule_played (scripted_view scripted.now) (plain_schedule schedule.now)) }
{
    match play(alloc, &scripted.source.program, schedule) {
        Ok(played) => reported(alloc, scripted, schedule, &played),
        Err(PlayFault::NoStart) => end(alloc, End::NoStart),
        Err(PlayFault::ValueLimit(position)) => end(alloc, End::TooLarge(position)),
        Err(PlayFault::Illegal(number)) => end(alloc, End::NotEnabled(number)),
        Err(PlayFault::Memory) => Err(Memory),
    }
}

/// The end that the text of a schedule brings.
pub fn traced(alloc: Global, scripted: &Scripted, text: &[u8]) -> Result<Ended, Memory>
    requires short { length text.now ≤ 4194304 }
    requires spelled { IsSpelled (source_view scripted.now.source) }
    ensures { IfOk result (λ e. ended_view e ≡ traced (scripted_view scripted.now) text.now) }
{
    schedules_obey();
    let source = &scripted.source;
    match read_schedule(alloc, text, &source.program, &source.names) {
        Ok(schedule) => played(alloc, scripted, &schedule),
        Err(fault) => schedule_refused(alloc, fault),
    }
}
