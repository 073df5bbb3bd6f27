//! The verdicts on the conditions of a script, slice by slice up to the first that isn't valid.

ghost use Rattle.std.specs.Prelude.{◌≡◌, ◌<◌, ◌≤◌, ◌+◌, ◌-◌, ◌^◌, ◌++◌, length, take, drop, get_or, IfOk, IsTrue};
ghost use Rattle.std.specs.Option.{option_map};
ghost use Rattle.st_form.specs.Shared.{plain_condition};
ghost use Rattle.st_form.specs.declared.conditions.Condition.{Condition};
ghost use Rattle.control_facts.specs.Alternatives.{control_of};
ghost use Rattle.search_verdicts.specs.Plain.{plain_path, plain_shown};
ghost use Rattle.discharge.specs.Verdicts.{AreAnswers};
ghost use Rattle.step_report.specs.declared.conditions.Reason.TheVariants.{Open, Wide};
ghost use Rattle.step_report.specs.Searches.{open_text, wide_text};
ghost use Rattle.step_plan.specs.Outcome.{ended_view, IsDecided};
ghost use Rattle.step_run.specs.Conditions.{setting_of};
ghost use Rattle.step_run.specs.Verified.{undecided};
ghost use Rattle.step_run.specs.Deciding.{EndsAt, Settled, GoesFrom};
ghost use Rattle.step_run.specs.Views.{source_view, posed_view};
ghost use Rattle.step_run.specs.Ready.{IsReady};

use crate::posed::Posed;
use crate::reports::{not_proved_text, variable_count, variables_of};
use discharge::{Components, decide_all};
use linear_prover::{PathStep, Shown, Verdict, WideStage};
use st_memory::Memory;
use std::alloc::Global;
use step_plan::{Ended, Stage, Status};
use step_report::Reason;

/// How many conditions are decided before their verdicts are looked at.
const SLICE: usize = 64;

/// The place behind the slice that begins at a place.
fn slice_end(place: usize, size: usize) -> usize
    requires { place < size }
    ensures { (place < result) × (result ≤ size) }
{
    place + SLICE.min(size - place)
}

/// The verdicts on the conditions from one place to before another, in their order.
fn decided(
    alloc: Global,
    components: &Components,
    posed: &Posed,
    from: usize,
    to: usize,
) -> Result<Vec<Verdict>, Memory>
    requires ready { IsReady posed.now }
    requires components { components.now ≡ control_of (source_view posed.now.source).processes }
    requires places { (from ≤ to) × (to ≤ length posed.now.conditions.items) }
    ensures { IfOk result (λ v. AreAnswers (setting_of (source_view posed.now.source)) (take (to - from) (drop from posed.now.conditions.items)) v.items) }
{
    let slice = &posed.conditions[from..to];
    let variables = variables_of(&posed.source.program);
    decide_all(alloc, components, variables, slice)
}

/// The end of a run in which the condition at a place is left open.
fn left_open(
    alloc: Global,
    posed: &Posed,
    place: usize,
    path: &[PathStep],
    state: &Option<Shown>,
) -> Result<Ended, Memory>
    requires place { place < length posed.now.conditions.items }
    requires ready { IsReady posed.now }
    ensures { IfOk result (λ e. (any : Condition) → ended_view e ≡ undecided (posed_view posed.now) (place + 1) (plain_condition (get_or posed.now.conditions.items place any))
        Open (open_text (posed_view posed.now).program.names (plain_path path.now) (option_map plain_shown state.now))) }
{
    let mut text = not_proved_text(alloc, posed, place, Reason::Open)?;
    step_report::open(
        &mut text,
        &posed.source.names,
        variable_count(posed),
        path,
        state,
    )?;
    Ok(Ended {
        status: Status::NotProved(place as u32 + 1),
        text,
    })
}

/// The end of a run that gives up at the condition at a place.
fn given_up(
    alloc: Global,
    posed: &Posed,
    place: usize,
    path: &[PathStep],
    stage: &WideStage,
) -> Result<Ended, Memory>
    requires place { place < length posed.now.conditions.items }
    requires ready { IsReady posed.now }
    ensures { IfOk result (λ e. (any : Condition) → ended_view e ≡ undecided (posed_view posed.now) (place + 1) (plain_condition (get_or posed.now.conditions.items place any))
        Wide (wide_text (posed_view posed.now).program.names (plain_path path.now) stage.now)) }
{
    let mut text = not_proved_text(alloc, posed, place, Reason::Wide)?;
    step_report::wide(
        &mut text,
        &posed.source.names,
        variable_count(posed),
        path,
        stage,
    )?;
    Ok(Ended {
        status: Status::NotProved(place as u32 + 1),
        text,
    })
}

/// Goes on where the verdict on the condition at a place is that it is valid.
fn at_verdict(
    alloc: Global,
    posed: &Posed,
    place: usize,
    verdict: &Verdict,
) -> Result<Stage<()>, Memory>
    requires place { place < length posed.now.conditions.items }
    requires ready { IsReady posed.now }
    ensures { IfOk result (λ s. (any : Condition) → EndsAt (posed_view posed.now) (place + 1) (plain_condition (get_or posed.now.conditions.items place any)) verdict.now s) }
{
    match verdict {
        Verdict::Valid(_) => Ok(Stage::On(())),
        Verdict::Open(path, state) => {
            Ok(Stage::Over(left_open(alloc, posed, place, path, state)?))
        }
        Verdict::Wide(path, stage) => {
            Ok(Stage::Over(given_up(alloc, posed, place, path, stage)?))
        }
    }
}

/// Goes on where these verdicts on the conditions from a place on are that all are valid, and else ends at the first that
/// isn't.
fn all_valid(
    alloc: Global,
    posed: &Posed,
    from: usize,
    verdicts: &[Verdict],
) -> Result<Stage<()>, Memory>
    requires ready { IsReady posed.now }
    requires within { from + length verdicts.now ≤ length posed.now.conditions.items }
    requires answers { AreAnswers (setting_of (source_view posed.now.source)) (take (length verdicts.now) (drop from posed.now.conditions.items)) verdicts.now }
    ensures { IfOk result (λ s. Settled (posed_view posed.now) from verdicts.now s) }
{
    let mut place = from;
    for verdict in verdicts {
        match at_verdict(alloc, posed, place, verdict)? {
            Stage::On(_) => place += 1,
            Stage::Over(ended) => return Ok(Stage::Over(ended)),
        }
    }
    Ok(Stage::On(()))
}

/// The certificates of the conditions from one place to before another, where these are valid. Else the run's end at the
/// first that isn't.
pub fn valid_to(
    alloc: Global,
    components: &Components,
    posed: &Posed,
    from: usize,
    to: usize,
) -> Result<Stage<Vec<Verdict>>, Memory>
    requires ready { IsReady posed.now }
    requires components { components.now ≡ control_of (source_view posed.now.source).processes }
    requires places { (from < to) × (to ≤ length posed.now.conditions.items) }
    ensures { IfOk result (λ s. GoesFrom (posed_view posed.now) from s) }
{
    let verdicts = decided(alloc, components, posed, from, to)?;
    match all_valid(alloc, posed, from, &verdicts)? {
        Stage::On(_) => Ok(Stage::On(verdicts)),
        Stage::Over(ended) => Ok(Stage::Over(ended)),
    }
}

/// The certificates of the next conditions, from a place on, where these are valid. Else the run's end at the first that
/// isn't.
pub fn next_valid(
    alloc: Global,
    components: &Components,
    posed: &Posed,
    place: usize,
) -> Result<Stage<Vec<Verdict>>, Memory>
    requires ready { IsReady posed.now }
    requires components { components.now ≡ control_of (source_view posed.now.source).processes }
    requires place { place < length posed.now.conditions.items }
    ensures { IfOk result (λ s. GoesFrom (posed_view posed.now) place s) }
{
    let end = slice_end(place, posed.conditions.len());
    valid_to(alloc, components, posed, place, end)
}
