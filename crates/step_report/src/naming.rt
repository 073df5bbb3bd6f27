//! What reports call the parts of a program.

ghost use Rattle.std.specs.Prelude.{◌≡◌, ◌++◌, length, OnOk};
ghost use Rattle.std.specs.Option.{option_map};
ghost use Rattle.step_report.specs.Names.{variable_text, label_text, location_text, statement_text, part_text, transition_text};

use crate::pushing::{push_from_one, push_text};
use st_form::{Part, TransName};
use st_memory::Memory;
use st_program::NameTable;

/// A variable by its name. `variables` is the number of variables.
pub fn push_variable(
    out: &mut Vec<u8>,
    names: &NameTable,
    variables: u32,
    variable: usize,
) -> Result<(), Memory>
    requires { variables ≡ length names.now.variables }
    ensures { OnOk result (out.new.items ≡ out.old.items ++ variable_text names.now variable) }
{
    if variable < variables as usize {
        push_text(out, names.variable_name(variable as u32).as_bytes())
    } else {
        Ok(())
    }
}

/// A label, or else a number from 1 on behind a sign.
fn push_label(out: &mut Vec<u8>, label: Option<&str>, sign: &[u8], index: u32) -> Result<(), Memory>
    ensures { OnOk result (out.new.items ≡ out.old.items ++ label_text (option_map (λ s. s.now) label.entry) sign.now index) }
{
    match label {
        Some(label) => push_text(out, label.as_bytes()),
        None => {
            push_text(out, sign)?;
            push_from_one(out, index)
        }
    }
}

pub fn push_location(out: &mut Vec<u8>, names: &NameTable, location: u32) -> Result<(), Memory>
    ensures { OnOk result (out.new.items ≡ out.old.items ++ location_text names.now location) }
{
    push_label(out, names.location_name(location), b"@", location)
}

pub fn push_statement(out: &mut Vec<u8>, names: &NameTable, occ: u32) -> Result<(), Memory>
    ensures { OnOk result (out.new.items ≡ out.old.items ++ statement_text names.now occ) }
{
    push_label(out, names.statement_name(occ), b"#", occ)
}

fn part_text(part: Part) -> &'static [u8]
    ensures { result.now ≡ part_text part }
{
    match part {
        Part::Whole => b"".as_slice(),
        Part::Entry => b".entry".as_slice(),
        Part::Exit => b".exit".as_slice(),
    }
}

pub fn push_transition(out: &mut Vec<u8>, names: &NameTable, name: TransName) -> Result<(), Memory>
    ensures { OnOk result (out.new.items ≡ out.old.items ++ transition_text names.now name) }
{
    match name {
        TransName::Idle => push_text(out, b"idle"),
        TransName::Step { occ, part } => {
            push_statement(out, names, occ)?;
            push_text(out, part_text(part))
        }
    }
}
