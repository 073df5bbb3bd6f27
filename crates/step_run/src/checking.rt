//! The check of a script's conditions against a file of certificates.

ghost use Rattle.std.specs.Prelude.{◌≡◌, ◌<◌, ◌+◌, List, ℕ, length, get_or, IfOk};
ghost use Rattle.std.specs.Thread.{IsSync};
ghost use Rattle.st_outside.specs.Faults.{NoneFell};
ghost use Rattle.st_form.specs.Shared.{plain_condition};
ghost use Rattle.st_form.specs.declared.conditions.Condition.{Condition};
ghost use Rattle.certificate_batches.specs.Finding.{finding, IsAmong};
ghost use Rattle.step_plan.specs.Outcome.{ended_view, IsDecided};
ghost use Rattle.step_plan.specs.Plan.{Follows};
ghost use Rattle.step_run.specs.Checked.{ending, not_proved, checked};
ghost use Rattle.step_run.specs.Conditions.{setting_of};
ghost use Rattle.step_run.specs.Plans.{check_posed};
ghost use Rattle.step_run.specs.Views.{posed_view};
ghost use Rattle.step_run.specs.Ready.{IsReady};

use crate::crew::crew;
use crate::posed::Posed;
use crate::reports::{goals_proved, not_proved_text, variables_of};
use certificate_batches::{Claims, Finding, check_file};
use control_facts::components;
use search_laws::laws::programs_are_in_order;
use st_memory::Memory;
use st_outside::{Files, Gate};
use std::alloc::Global;
use std::thread::Threads;
use step_plan::{End, Ended, Stage, Status, end};
use step_report::Reason;

/// The end of a check in which the condition at a place has no valid block.
fn not_proved(alloc: Global, posed: &Posed, place: usize, reason: Reason) -> Result<Ended, Memory>
    requires place { place < length posed.now.conditions.items }
    requires ready { IsReady posed.now }
    ensures { IfOk result (λ e. (any : Condition) → ended_view e
        ≡ not_proved (posed_view posed.now) (place + 1) (plain_condition (get_or posed.now.conditions.items place any)) reason) }
{
    let text = not_proved_text(alloc, posed, place, reason)?;
    Ok(Ended {
        status: Status::NotProved(place as u32 + 1),
        text,
    })
}

/// The end behind the last block, where what isn't blank stands at this place.
fn ending(alloc: Global, posed: &Posed, trailing: Option<u64>) -> Result<Ended, Memory>
    requires { IsReady posed.now }
    ensures { IfOk result (λ e. ended_view e ≡ ending (posed_view posed.now) trailing) }
{
    let Some(place) = trailing else {
        return goals_proved(alloc, posed);
    };
    end(alloc, End::Trailing(place))
}

/// The end that a finding brings.
fn told(alloc: Global, posed: &Posed, found: Finding) -> Result<Ended, Memory>
    requires ready { IsReady posed.now }
    requires among { IsAmong (length posed.now.conditions.items) found }
    ensures { IfOk result (λ e. (text : List ℕ) → finding (setting_of (posed_view posed.now).program) (posed_view posed.now).conditions text ≡ found
        → ended_view e ≡ checked (posed_view posed.now) text) }
{
    match found {
        Finding::Discharged(trailing) => ending(alloc, posed, trailing),
        Finding::Refused(number, reason) => {
            not_proved(alloc, posed, number as usize - 1, reason)
        }
    }
}

/// Checks the conditions of a script against the file of their certificates, while it is read.
pub fn checked<R: Threads + Sync, F: Files, G: Gate + Sync>(
    rt: &R,
    alloc: Global,
    files: &mut F,
    gate: &G,
    workers: u32,
    posed: &Posed,
    name: &str,
) -> Result<Ended, Memory>
    requires workers { 0 < workers }
    requires ready { IsReady posed.now }
    ensures follows { IfOk result (Follows (F.told files.old) (F.faults files.old) (F.faults files.new) (check_posed name.now (posed_view posed.now))) }
    ensures same { F.told files.new ≡ F.told files.old }
    ensures later { NoneFell (F.faults files.old) (F.faults files.new) }
{
    programs_are_in_order();
    let components = components(alloc, &posed.source.program)?;
    let claims = Claims {
        components: &components,
        variables: variables_of(&posed.source.program),
        conditions: posed.conditions.as_slice(),
    };
    let workers = crew(workers, claims.conditions);
    gate.posed(claims.conditions.len());
    match check_file(rt, alloc, gate, workers, &claims, files, name)? {
        Stage::On(finding) => told(alloc, posed, finding),
        Stage::Over(ended) => Ok(ended),
    }
}
