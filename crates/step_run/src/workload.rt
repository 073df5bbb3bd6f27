//! A workload: its texts are made, and then go the way of `verify`.

ghost use Rattle.std.specs.Prelude.{◌≡◌, ◌≤◌, ◌++◌, IfOk};
ghost use Rattle.step_plan.specs.Outcome.{ended_view, IsDecided};
ghost use Rattle.step_plan.specs.Plan.{ends, then_plan};
ghost use Rattle.step_plan.specs.Stage.{Settles, IfOn};
ghost use Rattle.step_run.specs.Plans.{workload_conditions, count_posed, with_number, numbered};
ghost use Rattle.step_run.specs.Ready.{IsReady};
ghost use Rattle.step_run.specs.Views.{posed_view};

use crate::counting::counted;
use crate::posed::{Posed, posed_of_text};
use crate::source::source_of_text;
use st_memory::Memory;
use std::alloc::Global;
use step_plan::{Ended, Stage};
use step_workload::workload_texts;

/// The conditions of the workload with n processes, or the run's end.
fn conditions(alloc: Global, n: u32) -> Result<Stage<Posed>, Memory>
    requires { (1 ≤ n) × (n ≤ 4) }
    ensures settles { IfOk result (Settles posed_view (workload_conditions n)) }
    ensures ready { IfOk result (λ s. IfOn s IsReady) }
{
    let (program, proof) = workload_texts(alloc, n)?;
    match source_of_text(alloc, &program)? {
        Stage::On(source) => posed_of_text(alloc, source, &proof),
        Stage::Over(ended) => Ok(Stage::Over(ended)),
    }
}

/// An end with the line of the workload before its text.
fn with_number(alloc: Global, n: u32, ended: Ended) -> Result<Ended, Memory>
    ensures { IfOk result (λ e. ended_view e ≡ with_number n (ended_view ended)) }
{
    let mut text = Vec::new(alloc);
    step_report::workload(&mut text, n)?;
    text.extend_from_slice(&ended.text)?;
    Ok(Ended {
        status: ended.status,
        text,
    })
}

/// Decides the conditions of a workload.
fn unnumbered(alloc: Global, n: u32) -> Result<Ended, Memory>
    requires { (1 ≤ n) × (n ≤ 4) }
    ensures outcome { IfOk result (λ e. then_plan (workload_conditions n) count_posed ≡ ends (ended_view e)) }
    ensures decided { IfOk result (λ e. IsDecided e.status) }
{
    match conditions(alloc, n)? {
        Stage::On(posed) => counted(alloc, &posed),
        Stage::Over(ended) => Ok(ended),
    }
}

/// Does a workload, up to the output text.
pub fn workload(alloc: Global, n: u32) -> Result<Ended, Memory>
    requires { (1 ≤ n) × (n ≤ 4) }
    ensures outcome { IfOk result (λ e. numbered n (then_plan (workload_conditions n) count_posed) ≡ ends (ended_view e)) }
    ensures decided { IfOk result (λ e. IsDecided e.status) }
{
    let ended = unnumbered(alloc, n)?;
    with_number(alloc, n, ended)
}
