//! The requirements of modes, as rows: for each variable the coefficient that it has in an equation's value behind the mode less the
//! value before it, and then the constant. Rows without entries are left out.

ghost use Rattle.std.specs.Prelude.{◌≡◌, ◌+◌, ◌<◌, ◌^◌, ◌++◌, [], ◌∷◌, All, IsTrue, IfOk, OnOk, length, map, flat_map};
ghost use Rattle.st_linear.specs.Linear.{is_within, with_entry};
ghost use Rattle.st_form.specs.Exchange.{is_listed};
ghost use Rattle.st_form.specs.Plain.{plain_change};
ghost use Rattle.transition_system.specs.Bounds.{ExchangeWithin, ModeWithin};
ghost use Rattle.transition_system.specs.Plain.{plain_mode, plain_transition};
ghost use Rattle.matrix_rows.specs.Rows.{IsKept};
ghost use Rattle.equation_laws.specs.Rows.{with_row, over_changed, over_places, variable_row, constant_row, variable_rows, mode_rows};
ghost use Rattle.linear_invariants.specs.Plain.{term_of, gain_of, passage_by};

use matrix_rows::{Row, part};
use smallvec::SmallVec;
use st_form::Change;
use st_linear::{Entries, Lin, push_entry};
use st_memory::Memory;
use std::alloc::Global;
use transition_system::{Mode, Transition};

/// Appends an entry, unless it is 0.
pub(crate) fn push_term(out: &mut Entries, column: u32, coefficient: &i128) -> Result<(), Memory>
    ensures { OnOk result (out.new.items ≡ out.old.items ++ with_entry column coefficient.now []) }
{
    match push_entry(out, column, *coefficient) {
        Ok(()) => Ok(()),
        Err(_) => Err(Memory),
    }
}

/// Appends a row, unless it has no entry.
pub(crate) fn push_row(
    alloc: Global,
    rows: &mut Vec<Row>,
    entries: &[(u32, i128)],
) -> Result<(), Memory>
    requires { IsKept entries.now }
    ensures { OnOk result (rows.new.items ≡ rows.old.items ++ with_row entries.now []) }
{
    if !entries.is_empty() {
        rows.push(Row::new(alloc, entries)?)?;
    }
    Ok(())
}

/// The coefficient of a variable in a form, or the form's constant.
pub(crate) fn term(of: Option<u32>, form: &Lin) -> i128
    ensures value { result ≡ term_of of form.now }
    ensures within { IsTrue (is_within (2 ^ 100) result) }
{
    match of {
        Some(variable) => part(variable, form.entries()),
        None => form.constant(),
    }
}

/// A term of a variable's new form, less that of the variable.
#[tactic(auto, unfolding(st_linear::specs::Linear::is_within))]
fn gain(of: Option<u32>, changed: u32, form: &Lin) -> i128
    ensures { result ≡ gain_of of changed form.now }
{
    match of {
        Some(variable) => {
            let held = part(variable, form.entries());
            if variable == changed { held - 1 } else { held }
        }
        None => form.constant(),
    }
}

/// The terms of all changed variables.
fn changed_entries(
    alloc: Global,
    numbers: &[(u32, Lin)],
    of: Option<u32>,
) -> Result<Entries, Memory>
    ensures { IfOk result (λ v. v.items ≡ over_changed (gain_of of) numbers.now) }
{
    let mut out = SmallVec::new(alloc);
    for pair in numbers {
        push_term(&mut out, pair.0, &gain(of, pair.0, &pair.1))?;
    }
    Ok(out)
}

fn is_listed(location: u32, locations: &[u32]) -> bool
    ensures { result ≡ is_listed location locations.now }
{
    for l in locations {
        if *l == location {
            return true;
        }
    }
    false
}

/// How often a location is entered, less how often it is left.
fn passage(enters: &[u32], leaves: &[u32], location: u32) -> i128
    ensures { result ≡ passage_by enters.now leaves.now location }
{
    i128::from(is_listed(location, enters)) - i128::from(is_listed(location, leaves))
}

/// Appends the terms of all locations.
pub(crate) fn push_places(
    out: &mut Entries,
    variables: u32,
    locations: u32,
    enters: &[u32],
    leaves: &[u32],
) -> Result<(), Memory>
    requires { variables + locations < 2 ^ 32 }
    ensures { OnOk result (out.new.items ≡ out.old.items ++ over_places variables (passage_by enters.now leaves.now) locations 0) }
{
    for location in 0..locations {
        push_term(
            out,
            variables + location,
            &passage(enters, leaves, location),
        )?;
    }
    Ok(())
}

/// The requirement on a change's constant.
fn constant_entries(
    alloc: Global,
    variables: u32,
    locations: u32,
    change: &Change,
) -> Result<Entries, Memory>
    requires { variables + locations < 2 ^ 32 }
    ensures { IfOk result (λ v. v.items ≡ constant_row variables locations (plain_change change.now)) }
{
    let mut out = changed_entries(alloc, &change.numbers, None)?;
    push_places(
        &mut out,
        variables,
        locations,
        &change.enters,
        &change.leaves,
    )?;
    Ok(out)
}

/// Appends the requirements on a change's variables.
fn push_variable_rows(
    alloc: Global,
    truths: &[bool],
    locations: u32,
    change: &Change,
    rows: &mut Vec<Row>,
) -> Result<(), Memory>
    requires few { length truths.now + locations < 2 ^ 32 }
    requires change { ExchangeWithin truths.now locations (plain_change change.now) }
    ensures { OnOk result (rows.new.items ≡ rows.old.items ++ variable_rows (variable_row (plain_change change.now)) (length truths.now) 0 []) }
{
    for variable in 0..truths.len() as u32 {
        let entries = changed_entries(alloc, &change.numbers, Some(variable))?;
        push_row(alloc, rows, entries.as_slice())?;
    }
    Ok(())
}

/// Appends the requirements of a mode.
fn push_mode_rows(
    alloc: Global,
    truths: &[bool],
    locations: u32,
    mode: &Mode,
    rows: &mut Vec<Row>,
) -> Result<(), Memory>
    requires few { length truths.now + locations < 2 ^ 32 }
    requires mode { ModeWithin truths.now locations (plain_mode mode.now) }
    ensures { OnOk result (rows.new.items ≡ rows.old.items ++ mode_rows (length truths.now) locations (plain_mode mode.now ∷ []) []) }
{
    push_variable_rows(alloc, truths, locations, &mode.change, rows)?;
    let last = constant_entries(alloc, truths.len() as u32, locations, &mode.change)?;
    push_row(alloc, rows, last.as_slice())
}

/// Appends the requirements of a transition's modes.
fn push_transition_rows(
    alloc: Global,
    truths: &[bool],
    locations: u32,
    modes: &[Mode],
    rows: &mut Vec<Row>,
) -> Result<(), Memory>
    requires few { length truths.now + locations < 2 ^ 32 }
    requires modes { All (ModeWithin truths.now locations) (map plain_mode modes.now) }
    ensures { OnOk result (rows.new.items ≡ rows.old.items ++ mode_rows (length truths.now) locations (map plain_mode modes.now) []) }
{
    for mode in modes {
        push_mode_rows(alloc, truths, locations, mode, rows)?;
    }
    Ok(())
}

/// The requirements of all modes.
pub(crate) fn all_mode_rows(
    alloc: Global,
    truths: &[bool],
    locations: u32,
    transitions: &[Transition],
) -> Result<Vec<Row>, Memory>
    requires few { length truths.now + locations < 2 ^ 32 }
    requires modes { All (λ t. All (ModeWithin truths.now locations) t.modes) (map plain_transition transitions.now) }
    ensures { IfOk result (λ v. v.items
        ≡ mode_rows (length truths.now) locations (flat_map (λ t. t.modes) (map plain_transition transitions.now)) []) }
{
    let mut rows = Vec::new(alloc);
    for transition in transitions {
        push_transition_rows(alloc, truths, locations, &transition.modes, &mut rows)?;
    }
    Ok(rows)
}
