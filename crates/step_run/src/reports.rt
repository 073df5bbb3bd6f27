//! The texts of a posed script.

ghost use Rattle.std.specs.Prelude.{◌≡◌, ◌<◌, ◌+◌, length, get_or, IfOk};
ghost use Rattle.st_form.specs.Shared.{plain_condition};
ghost use Rattle.st_form.specs.declared.conditions.Condition.{Condition};
ghost use Rattle.step_report.specs.Conditions.{not_proved_text};
ghost use Rattle.step_plan.specs.declared.status.Status.TheVariants.{Proved};
ghost use Rattle.step_plan.specs.Outcome.{ended_view};
ghost use Rattle.step_run.specs.Checked.{goals_proved};
ghost use Rattle.step_run.specs.Views.{posed_view};
ghost use Rattle.step_run.specs.Ready.{IsReady};

use crate::posed::Posed;
use st_form::Variable;
use st_memory::Memory;
use st_program::Program;
use std::alloc::Global;
use step_plan::{Ended, Status};
use step_report::Reason;

pub fn variables_of(program: &Program) -> &[Variable]
    ensures { result.now ≡ program.now.variables }
{
    program.variables.as_slice()
}

/// How many variables a program has, at most 64.
pub fn variable_count(posed: &Posed) -> u32
    requires { IsReady posed.now }
    ensures { result ≡ length posed.now.source.names.variables }
{
    variables_of(&posed.source.program).len() as u32
}

/// The end of a run that shows what was asked for.
pub fn shown(text: Vec<u8>) -> Ended
    ensures { ended_view result ≡ record { status = Proved; text = text.items } }
{
    Ended {
        status: Status::Proved,
        text,
    }
}

/// The end of a run that has discharged all conditions: it names each goal.
pub fn goals_proved(alloc: Global, posed: &Posed) -> Result<Ended, Memory>
    requires { IsReady posed.now }
    ensures { IfOk result (λ e. ended_view e ≡ goals_proved (posed_view posed.now)) }
{
    let mut text = Vec::new(alloc);
    step_report::proved(
        &mut text,
        &posed.source.names,
        variable_count(posed),
        &posed.script.steps,
        posed.conditions.len() as u64,
    )?;
    Ok(shown(text))
}

/// The line of the condition at a place, which isn't discharged.
pub fn not_proved_text(
    alloc: Global,
    posed: &Posed,
    place: usize,
    reason: Reason,
) -> Result<Vec<u8>, Memory>
    requires place { place < length posed.now.conditions.items }
    requires ready { IsReady posed.now }
    ensures { IfOk result (λ t. (any : Condition) → t.items ≡ not_proved_text (posed_view posed.now).program.names (posed_view posed.now).steps (place + 1)
        (plain_condition (get_or posed.now.conditions.items place any)).name reason) }
{
    let mut text = Vec::new(alloc);
    step_report::not_proved(
        &mut text,
        &posed.source.names,
        &posed.script.steps,
        place as u32 + 1,
        &posed.conditions[place].name,
        reason,
    )?;
    Ok(text)
}
