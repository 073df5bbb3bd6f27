//! What is reported of a proof whose conditions are all discharged.

ghost use Rattle.std.specs.Prelude.{◌≡◌, ◌++◌, length, map, OnOk};
ghost use Rattle.temporal_goals.specs.Plain.{plain_goal, plain_step};
ghost use Rattle.step_report.specs.Goals.{goal_text, goal_lines, counts_text, proved_text, counted_text, workload_line};

use crate::pushing::{push_number, push_text};
use crate::sums::push_sum;
use st_memory::Memory;
use st_program::NameTable;
use temporal_goals::{Goal, Step};

pub fn push_goal(
    out: &mut Vec<u8>,
    names: &NameTable,
    variables: u32,
    name: &[u8],
    goal: &Goal,
) -> Result<(), Memory>
    requires { variables ≡ length names.now.variables }
    ensures { OnOk result (out.new.items ≡ out.old.items ++ goal_text names.now name.now (plain_goal goal.now)) }
{
    match goal {
        Goal::Invariant(_) => {
            push_text(out, b"invariant ")?;
            push_text(out, name)
        }
        Goal::Waiting(_, _) => {
            push_text(out, b"waiting ")?;
            push_text(out, name)
        }
        Goal::Response(_, _, bound) => {
            push_text(out, b"response ")?;
            push_text(out, name)?;
            push_text(out, b" within ")?;
            push_sum(out, names, variables, bound)
        }
    }
}

fn push_goals(
    out: &mut Vec<u8>,
    names: &NameTable,
    variables: u32,
    steps: &[Step],
) -> Result<(), Memory>
    requires { variables ≡ length names.now.variables }
    ensures { OnOk result (out.new.items ≡ out.old.items ++ goal_lines names.now (map plain_step steps.now)) }
{
    for step in steps {
        push_goal(out, names, variables, step.name.as_bytes(), &step.goal)?;
        push_text(out, b"\n")?;
    }
    Ok(())
}

fn push_counts(out: &mut Vec<u8>, steps: &[Step], conditions: u64) -> Result<(), Memory>
    ensures { OnOk result (out.new.items ≡ out.old.items ++ counts_text (map plain_step steps.now) conditions) }
{
    push_text(out, b"proved: goals ")?;
    push_number(out, steps.len() as u64)?;
    push_text(out, b", conditions ")?;
    push_number(out, conditions)
}

/// Appends the report of `check` and `verify` where all conditions of these steps, so many, are discharged. `variables` is
/// the number of variables.
pub fn proved(
    out: &mut Vec<u8>,
    names: &NameTable,
    variables: u32,
    steps: &[Step],
    conditions: u64,
) -> Result<(), Memory>
    requires { variables ≡ length names.now.variables }
    ensures { OnOk result (out.new.items ≡ out.old.items ++ proved_text names.now (map plain_step steps.now) conditions) }
{
    push_counts(out, steps, conditions)?;
    push_text(out, b"\n")?;
    push_goals(out, names, variables, steps)
}

/// Appends the report of a workload where all conditions of these steps, so many, are discharged by certificates with so
/// many nodes in all. It stands behind the workload's own line.
pub fn counted(out: &mut Vec<u8>, steps: &[Step], conditions: u64, nodes: u64) -> Result<(), Memory>
    ensures { OnOk result (out.new.items ≡ out.old.items ++ counted_text (map plain_step steps.now) conditions nodes) }
{
    push_counts(out, steps, conditions)?;
    push_text(out, b", nodes ")?;
    push_number(out, nodes)?;
    push_text(out, b"\n")
}

/// Appends the line in front of whatever a workload comes to.
pub fn workload(out: &mut Vec<u8>, number: u32) -> Result<(), Memory>
    ensures { OnOk result (out.new.items ≡ out.old.items ++ workload_line number) }
{
    push_text(out, b"workload ")?;
    push_number(out, u64::from(number))?;
    push_text(out, b"\n")
}
