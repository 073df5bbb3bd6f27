//! What a search ended with.

ghost use Rattle.std.specs.Prelude.{◌≡◌, ◌++◌, length, OnOk};
ghost use Rattle.std.specs.Option.{option_map};
ghost use Rattle.search_verdicts.specs.Plain.{plain_step, plain_path, plain_shown, step_by};
ghost use Rattle.step_report.specs.Searches.{division_text, step_text, more_steps, steps_text, path_text, place_text, control_lines, value_text, value_lines, state_text, stage_text, open_text, wide_text};

use crate::naming::{push_location, push_statement, push_variable};
use crate::pushing::{push_from_one, push_int, push_text};
use control_states::Alternative;
use search_verdicts::{PathKind, PathStep, Shown, WideStage};
use st_memory::Memory;
use st_program::{Datum, NameTable};

fn push_division(out: &mut Vec<u8>, kind: PathKind, number: u32) -> Result<(), Memory>
    ensures { OnOk result (out.new.items ≡ out.old.items ++ division_text (step_by kind number)) }
{
    match kind {
        PathKind::Case => push_text(out, b"case ")?,
        PathKind::Bool => push_text(out, b"bool ")?,
        PathKind::Split => push_text(out, b"split ")?,
    }
    push_from_one(out, number)
}

fn push_step(out: &mut Vec<u8>, step: &PathStep) -> Result<(), Memory>
    ensures { OnOk result (out.new.items ≡ out.old.items ++ step_text (plain_step step.now)) }
{
    push_division(out, step.kind, step.number)?;
    push_text(out, b" ")?;
    push_from_one(out, step.branch)
}

fn push_more_steps(out: &mut Vec<u8>, path: &[PathStep]) -> Result<(), Memory>
    ensures { OnOk result (out.new.items ≡ out.old.items ++ more_steps (plain_path path.now)) }
{
    for step in path {
        push_text(out, b", ")?;
        push_step(out, step)?;
    }
    Ok(())
}

fn push_steps(out: &mut Vec<u8>, path: &[PathStep]) -> Result<(), Memory>
    ensures { OnOk result (out.new.items ≡ out.old.items ++ steps_text (plain_path path.now)) }
{
    match path.split_first() {
        None => push_text(out, b"root"),
        Some((first, more)) => {
            push_step(out, first)?;
            push_more_steps(out, more)
        }
    }
}

fn push_path(out: &mut Vec<u8>, path: &[PathStep]) -> Result<(), Memory>
    ensures { OnOk result (out.new.items ≡ out.old.items ++ path_text (plain_path path.now)) }
{
    push_text(out, b"path: ")?;
    push_steps(out, path)?;
    push_text(out, b"\n")
}

fn push_place(out: &mut Vec<u8>, names: &NameTable, place: Alternative) -> Result<(), Memory>
    ensures { OnOk result (out.new.items ≡ out.old.items ++ place_text names.now place) }
{
    match place {
        Alternative::Location(location) => push_location(out, names, location),
        Alternative::Inside(occ) => {
            push_text(out, b"inside ")?;
            push_statement(out, names, occ)
        }
    }
}

fn push_control(
    out: &mut Vec<u8>,
    names: &NameTable,
    control: &[(u32, Alternative)],
) -> Result<(), Memory>
    ensures { OnOk result (out.new.items ≡ out.old.items ++ control_lines names.now control.now) }
{
    for (component, place) in control {
        push_text(out, b"control ")?;
        push_from_one(out, *component)?;
        push_text(out, b": ")?;
        push_place(out, names, *place)?;
        push_text(out, b"\n")?;
    }
    Ok(())
}

fn push_value(out: &mut Vec<u8>, value: &Datum) -> Result<(), Memory>
    ensures { OnOk result (out.new.items ≡ out.old.items ++ value_text value.now) }
{
    match value {
        Datum::Number(number) => push_int(out, number),
        Datum::Truth(true) => push_text(out, b"true"),
        Datum::Truth(false) => push_text(out, b"false"),
    }
}

/// The values of the variables, of which there are so many, in order.
fn push_store(
    out: &mut Vec<u8>,
    names: &NameTable,
    variables: u32,
    store: &[Datum],
) -> Result<(), Memory>
    requires { variables ≡ length names.now.variables }
    ensures { OnOk result (out.new.items ≡ out.old.items ++ value_lines names.now 0 store.now) }
{
    for (variable, value) in store.iter().enumerate() {
        push_text(out, b"value ")?;
        push_variable(out, names, variables, variable)?;
        push_text(out, b": ")?;
        push_value(out, value)?;
        push_text(out, b"\n")?;
    }
    Ok(())
}

fn push_state(
    out: &mut Vec<u8>,
    names: &NameTable,
    variables: u32,
    state: &Option<Shown>,
) -> Result<(), Memory>
    requires { variables ≡ length names.now.variables }
    ensures { OnOk result (out.new.items ≡ out.old.items ++ state_text names.now (option_map plain_shown state.now)) }
{
    match state {
        None => push_text(out, b"state: none\n"),
        Some(state) => {
            push_control(out, names, &state.control)?;
            push_store(out, names, variables, &state.store)
        }
    }
}

fn push_stage(
    out: &mut Vec<u8>,
    names: &NameTable,
    variables: u32,
    stage: &WideStage,
) -> Result<(), Memory>
    requires { variables ≡ length names.now.variables }
    ensures { OnOk result (out.new.items ≡ out.old.items ++ stage_text names.now stage.now) }
{
    match stage {
        WideStage::Tree => push_text(out, b"tree"),
        WideStage::Rows => push_text(out, b"rows"),
        WideStage::Variable(variable) => {
            push_variable(out, names, variables, *variable as usize)
        }
    }
}

/// Appends the lines behind that of a condition that is left open: the path, and the state that is shown. `variables` is
/// the number of variables.
pub fn open(
    out: &mut Vec<u8>,
    names: &NameTable,
    variables: u32,
    path: &[PathStep],
    state: &Option<Shown>,
) -> Result<(), Memory>
    requires { variables ≡ length names.now.variables }
    ensures { OnOk result (out.new.items ≡ out.old.items ++ open_text names.now (plain_path path.now) (option_map plain_shown state.now)) }
{
    push_path(out, path)?;
    push_state(out, names, variables, state)
}

/// Appends the lines behind that of a condition at which the search gave up: the path, and the stage. `variables` is the
/// number of variables.
pub fn wide(
    out: &mut Vec<u8>,
    names: &NameTable,
    variables: u32,
    path: &[PathStep],
    stage: &WideStage,
) -> Result<(), Memory>
    requires { variables ≡ length names.now.variables }
    ensures { OnOk result (out.new.items ≡ out.old.items ++ wide_text names.now (plain_path path.now) stage.now) }
{
    push_path(out, path)?;
    push_text(out, b"stage: ")?;
    push_stage(out, names, variables, stage)?;
    push_text(out, b"\n")
}
