//! `verify`: all workers search for certificates of the conditions, and none is kept. The first condition that isn't valid
//! comes with the verdict on it, which is told.

ghost use Rattle.std.specs.Prelude.{◌≡◌, ◌<◌, ◌≤◌, ◌-◌, length, take, drop, get_or, IfOk};
ghost use Rattle.std.specs.Thread.{IsSync};
ghost use Rattle.st_form.specs.declared.conditions.Condition.{Condition};
ghost use Rattle.control_facts.specs.Alternatives.{control_of};
ghost use Rattle.discharge.specs.Marked.{IsFirstUndecided};
ghost use Rattle.discharge.specs.Verdicts.{IsAnswer};
ghost use Rattle.step_plan.specs.Outcome.{ended_view};
ghost use Rattle.step_run.specs.Conditions.{setting_of};
ghost use Rattle.step_run.specs.Verified.{verified};
ghost use Rattle.step_run.specs.Deciding.{PassesFrom};
ghost use Rattle.step_run.specs.Views.{source_view, posed_view};
ghost use Rattle.step_run.specs.Ready.{IsReady};

use crate::crew::crew;
use crate::deciding::at_verdict;
use crate::posed::Posed;
use crate::reports::{goals_proved, variables_of};
use control_facts::components;
use discharge::{Components, Undecided, first_undecided};
use linear_prover::Verdict;
use st_memory::Memory;
use st_outside::Gate;
use std::alloc::Global;
use std::thread::Threads;
use step_plan::{Ended, Stage};

/// The first condition that isn't valid, from one place to before another, counted from there, and the verdict on it.
fn first_open<R: Threads + Sync, G: Gate + Sync>(
    rt: &R,
    alloc: Global,
    gate: &G,
    workers: u32,
    components: &Components,
    posed: &Posed,
    from: usize,
    to: usize,
) -> Result<Option<Undecided>, Memory>
    requires workers { 0 < workers }
    requires ready { IsReady posed.now }
    requires components { components.now ≡ control_of (source_view posed.now.source).processes }
    requires places { (from ≤ to) × (to ≤ length posed.now.conditions.items) }
    ensures { IfOk result (λ o. IsFirstUndecided (setting_of (source_view posed.now.source)) (take (to - from) (drop from posed.now.conditions.items)) o) }
{
    let slice = &posed.conditions[from..to];
    let variables = variables_of(&posed.source.program);
    first_undecided(
        rt,
        alloc,
        gate,
        crew(workers, slice),
        components,
        variables,
        slice,
    )
}

/// Goes on behind the condition at a place where the verdict on it is that it is valid, and else ends there.
fn at_open(
    alloc: Global,
    posed: &Posed,
    place: usize,
    verdict: &Verdict,
) -> Result<Stage<usize>, Memory>
    requires ready { IsReady posed.now }
    requires place { place < length posed.now.conditions.items }
    requires answer { (any : Condition) → IsAnswer (setting_of (source_view posed.now.source)) (get_or posed.now.conditions.items place any) verdict.now }
    ensures { IfOk result (λ s. PassesFrom (posed_view posed.now) place s) }
{
    match at_verdict(alloc, posed, place, verdict)? {
        Stage::On(_) => Ok(Stage::On(place + 1)),
        Stage::Over(ended) => Ok(Stage::Over(ended)),
    }
}

/// Goes on behind the next conditions where these are valid, and else ends at the first that isn't.
fn searched<R: Threads + Sync, G: Gate + Sync>(
    rt: &R,
    alloc: Global,
    gate: &G,
    workers: u32,
    components: &Components,
    posed: &Posed,
    place: usize,
) -> Result<Stage<usize>, Memory>
    requires workers { 0 < workers }
    requires ready { IsReady posed.now }
    requires components { components.now ≡ control_of (source_view posed.now.source).processes }
    requires place { place < length posed.now.conditions.items }
    ensures { IfOk result (λ s. PassesFrom (posed_view posed.now) place s) }
{
    let end = posed.conditions.len();
    match first_open(rt, alloc, gate, workers, components, posed, place, end)? {
        None => Ok(Stage::On(end)),
        Some(open) => at_open(alloc, posed, place + open.place, &open.verdict),
    }
}

/// Decides all conditions, and names each goal where all are valid.
pub fn verified<R: Threads + Sync, G: Gate + Sync>(
    rt: &R,
    alloc: Global,
    gate: &G,
    workers: u32,
    posed: &Posed,
) -> Result<Ended, Memory>
    requires workers { 0 < workers }
    requires ready { IsReady posed.now }
    ensures { IfOk result (λ e. ended_view e ≡ verified (posed_view posed.now)) }
{
    let components = components(alloc, &posed.source.program)?;
    gate.posed(posed.conditions.len());
    let mut place = 0;
    while place < posed.conditions.len() {
        match searched(rt, alloc, gate, workers, &components, posed, place)? {
            Stage::On(next) => place = next,
            Stage::Over(ended) => return Ok(ended),
        }
    }
    goals_proved(alloc, posed)
}
