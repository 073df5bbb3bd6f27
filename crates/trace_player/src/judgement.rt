//! Goals judged on a run.
//!
//! The formulas of a goal are evaluated in each state, each whole. Where a number on the way is too large in some state the goal
//! is unclear; otherwise `run_judging` judges what they are in the states.

ghost use Rattle.std.specs.Prelude.{◌≡◌, ◌<◌, ◌^◌, List, IfOk, length, map};
ghost use Rattle.st_form.specs.Plain.{plain};
ghost use Rattle.st_form.specs.Formula.{Situation};
ghost use Rattle.st_form.specs.declared.conditions.TransName.{TransName};
ghost use Rattle.st_program.specs.Plain.{plain_children};
ghost use Rattle.st_program.specs.Tree.{Processes};
ghost use Rattle.observations.specs.Observation.{Observation};
ghost use Rattle.run_judging.specs.Shown.{Shows};
ghost use Rattle.spl_semantics.specs.Runs as runs;
ghost use Rattle.temporal_goals.specs.Plain.{plain_goal};
ghost use Rattle.temporal_goals.specs.Texts.{invariant, waiting, response};
ghost use Rattle.trace_player.specs.Columns.{states_in, sights};
ghost use Rattle.trace_player.specs.Judgements.{JudgedOn, IsJudgement, judged_by};
ghost use Rattle.trace_player.specs.Playing.{IsPlayed};
ghost use Rattle.trace_player.specs.Watching.{IsWhole, IsWatched};

use crate::columns::{numbers, rows, truths};
use crate::counting::course_of;
use crate::fronts::fronts_of;
use crate::runs::Played;
use crate::watching::Watched;
use run_judging::{Course, Judged, invariance_failure, response_failure, waiting_failure};
use st_form::Form;
use st_linear::Lin;
use st_memory::Memory;
use st_program::{Program, State};
use std::alloc::Global;
use temporal_goals::Goal;

/// What is judged of a goal that is clear, from where it first fails.
fn judged_by(failure: Option<u32>) -> Judged
    ensures { result ≡ judged_by failure }
{
    match failure {
        Some(position) => Judged::Fails(position),
        None => Judged::Holds,
    }
}

/// An invariance, judged.
fn judge_invariance(
    alloc: Global,
    form: &Form,
    states: &[State],
    fronts: &[Vec<u32>],
) -> Result<Judged, Memory>
    requires few { length states.now < 2 ^ 32 }
    requires fronts { length fronts.now ≡ length states.now }
    ensures { IfOk result (λ judged. (o : Observation Situation) → states_in o ≡ sights states.now fronts.now → JudgedOn (invariant (plain form.now)) o judged) }
{
    let truths = truths(alloc, form, states, fronts)?;
    let clear = truths.len();
    if clear < states.len() {
        return Ok(Judged::Unclear(clear as u32));
    }
    Ok(judged_by(invariance_failure(&truths)))
}

/// A nested waiting-for, judged.
fn judge_waiting(
    alloc: Global,
    premise: &Form,
    forms: &[Form],
    states: &[State],
    fronts: &[Vec<u32>],
) -> Result<Judged, Memory>
    requires few { length states.now < 2 ^ 32 }
    requires fronts { length fronts.now ≡ length states.now }
    ensures { IfOk result (λ judged. (o : Observation Situation) → states_in o ≡ sights states.now fronts.now → JudgedOn (waiting (plain premise.now) (map plain forms.now)) o judged) }
{
    let premise = truths(alloc, premise, states, fronts)?;
    let rows = rows(alloc, forms, states, fronts)?;
    let clear = premise.len().min(rows.len());
    if clear < states.len() {
        return Ok(Judged::Unclear(clear as u32));
    }
    Ok(judged_by(waiting_failure(&premise, &rows)))
}

/// A response, judged.
fn judge_response(
    alloc: Global,
    course: &Course,
    premise: &Form,
    target: &Form,
    bound: &Lin,
    states: &[State],
    fronts: &[Vec<u32>],
) -> Result<Judged, Memory>
    requires few { length course.now.enabled.items < 2 ^ 32 }
    requires long { length states.now ≡ length course.now.enabled.items }
    requires fronts { length fronts.now ≡ length states.now }
    ensures { IfOk result (λ judged. (o : Observation Situation) → Shows course.now o → states_in o ≡ sights states.now fronts.now
        → JudgedOn (response (plain premise.now) (plain target.now) bound.now) o judged) }
{
    let premise = truths(alloc, premise, states, fronts)?;
    let target = truths(alloc, target, states, fronts)?;
    let bounds = numbers(alloc, bound, states)?;
    let clear = premise.len().min(target.len().min(bounds.len()));
    if clear < states.len() {
        return Ok(Judged::Unclear(clear as u32));
    }
    let failure = response_failure(alloc, course, &premise, &target, &bounds)?;
    Ok(judged_by(failure))
}

/// Whether a goal of the program holds on a run that was played.
///
/// Each formula of the goal, and the bound of a response, is evaluated whole in each state. The first state in which a product
/// or a partial sum on the way has size 2^126 or more makes the goal unclear, wherever it may fail.
pub fn judge(
    alloc: Global,
    program: &Program,
    played: &Played,
    goal: &Goal,
) -> Result<Judged, Memory>
    requires few { length played.now.enabled.items < 2 ^ 32 }
    requires long { length played.now.states.items ≡ length played.now.enabled.items }
    ensures { IfOk result (λ judged. (s : runs.State) (later : List (TransName × runs.State)) → IsPlayed (plain_children program.now.processes) s later played.now
        → IsJudgement (plain_children program.now.processes) s later (plain_goal goal.now) judged) }
{
    let fronts = fronts_of(alloc, program, &played.states)?;
    match goal {
        Goal::Invariant(form) => judge_invariance(alloc, form, &played.states, &fronts),
        Goal::Waiting(premise, forms) => {
            judge_waiting(alloc, premise, forms, &played.states, &fronts)
        }
        Goal::Response(premise, target, bound) => {
            let course = course_of(alloc, program, played)?;
            let states = &played.states;
            judge_response(alloc, &course, premise, target, bound, states, &fronts)
        }
    }
}

/// As `judge`, over what was made once for all goals of the run by `watch`.
pub fn judge_watched(
    alloc: Global,
    played: &Played,
    watched: &Watched,
    goal: &Goal,
) -> Result<Judged, Memory>
    requires { IsWhole played.now watched.now }
    ensures { IfOk result (λ judged. (p : Processes) (s : runs.State) (later : List (TransName × runs.State)) → IsWatched p played.now watched.now → IsPlayed p s later played.now
        → IsJudgement p s later (plain_goal goal.now) judged) }
{
    let states = &played.states;
    let fronts = &watched.fronts;
    match goal {
        Goal::Invariant(form) => judge_invariance(alloc, form, states, fronts),
        Goal::Waiting(premise, forms) => judge_waiting(alloc, premise, forms, states, fronts),
        Goal::Response(premise, target, bound) => {
            judge_response(
                alloc,
                &watched.course,
                premise,
                target,
                bound,
                states,
                fronts,
            )
        }
    }
}
