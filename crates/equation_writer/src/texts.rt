//! How formulas are printed.

ghost use Rattle.std.specs.Prelude.{◌≡◌, ◌++◌, [], OnOk, codes, if◌then◌else◌, length};
ghost use Rattle.st_form.specs.Plain.{plain, plain_list};
ghost use Rattle.step_report.specs.Names.{variable_text, location_text};
ghost use Rattle.step_report.specs.Sums.{sum_text};
ghost use Rattle.equation_writer.specs.Texts.{opening, closing, formula_text, joined_text};

use st_form::{Form, Lin};
use st_memory::Memory;
use step_report::{NameTable, push_number, push_sum, push_text};

/// A variable by its name. `variables` is the number of variables.
fn push_variable(
    out: &mut Vec<u8>,
    names: &NameTable,
    variables: u32,
    variable: u32,
) -> Result<(), Memory>
    requires { variables ≡ length names.now.variables }
    ensures { OnOk result (out.new.items ≡ out.old.items ++ variable_text names.now variable) }
{
    if variable >= variables {
        return Ok(());
    }
    push_text(out, names.variable_name(variable).as_bytes())
}

/// A location by its first label, or by its number from 1.
fn push_location(out: &mut Vec<u8>, names: &NameTable, location: u32) -> Result<(), Memory>
    ensures { OnOk result (out.new.items ≡ out.old.items ++ location_text names.now location) }
{
    match names.location_name(location) {
        Some(label) => push_text(out, label.as_bytes()),
        None => {
            push_text(out, b"@")?;
            push_number(out, u64::from(location) + 1)
        }
    }
}

/// That control is at a location.
fn push_place(out: &mut Vec<u8>, names: &NameTable, location: u32) -> Result<(), Memory>
    ensures { OnOk result (out.new.items ≡ out.old.items ++ (codes "at " ++ location_text names.now location)) }
{
    push_text(out, b"at ")?;
    push_location(out, names, location)
}

/// A sum that is compared with 0.
fn push_compared(
    out: &mut Vec<u8>,
    names: &NameTable,
    variables: u32,
    sum: &Lin,
    comparison: &[u8],
) -> Result<(), Memory>
    requires { variables ≡ length names.now.variables }
    ensures { OnOk result (out.new.items ≡ out.old.items ++ (sum_text names.now sum.now ++ comparison.now)) }
{
    push_sum(out, names, variables, sum)?;
    push_text(out, comparison)
}

fn is_joined(form: &Form) -> bool
    ensures opening { (if result then codes "(" else []) ≡ opening (plain form.now) }
    ensures closing { (if result then codes ")" else []) ≡ closing (plain form.now) }
{
    match form {
        Form::And(_) => true,
        Form::Or(_) => true,
        Form::True | Form::False | Form::Row(_) | Form::Equal(_) | Form::BoolVar(_) | Form::At(_) =>
            false,
        Form::Not(_) => false,
    }
}

/// What stands in front of a formula inside another.
fn push_opening(out: &mut Vec<u8>, form: &Form) -> Result<(), Memory>
    ensures { OnOk result (out.new.items ≡ out.old.items ++ opening (plain form.now)) }
{
    if is_joined(form) {
        return push_text(out, b"(");
    }
    Ok(())
}

/// What stands behind it.
fn push_closing(out: &mut Vec<u8>, form: &Form) -> Result<(), Memory>
    ensures { OnOk result (out.new.items ≡ out.old.items ++ closing (plain form.now)) }
{
    if is_joined(form) {
        return push_text(out, b")");
    }
    Ok(())
}

/// A formula, by the grammar of proof texts. `variables` is the number of variables.
#[cycle(print)]
#[tactic(auto, using(st_form::proofs::Nodes::nodes))]
pub(crate) fn push_formula(
    out: &mut Vec<u8>,
    names: &NameTable,
    variables: u32,
    form: &Form,
) -> Result<(), Memory>
    requires { variables ≡ length names.now.variables }
    ensures { OnOk result (out.new.items ≡ out.old.items ++ formula_text names.now (plain form.now)) }
{
    match form {
        Form::True => push_text(out, b"true"),
        Form::False => push_text(out, b"false"),
        Form::Row(sum) => push_compared(out, names, variables, sum, b" >= 0"),
        Form::Equal(sum) => push_compared(out, names, variables, sum, b" = 0"),
        Form::BoolVar(v) => push_variable(out, names, variables, *v),
        Form::At(l) => push_place(out, names, *l),
        Form::Not(f) => {
            push_text(out, b"~")?;
            push_opening(out, f)?;
            push_formula(out, names, variables, f)?;
            push_closing(out, f)
        }
        Form::And(fs) => push_joined(out, names, variables, b" /\\ ", b"true", fs),
        Form::Or(fs) => push_joined(out, names, variables, b" \\/ ", b"false", fs),
    }
}

/// Parts with a sign between them, or what stands for none.
#[cycle(print)]
fn push_joined(
    out: &mut Vec<u8>,
    names: &NameTable,
    variables: u32,
    sign: &[u8],
    empty: &[u8],
    parts: &[Form],
) -> Result<(), Memory>
    requires { variables ≡ length names.now.variables }
    ensures { OnOk result (out.new.items ≡ out.old.items ++ joined_text names.now sign.now empty.now (plain_list parts.now)) }
{
    if parts.is_empty() {
        return push_text(out, empty);
    }
    let mut first = true;
    for part in parts {
        if !first {
            push_text(out, sign)?;
        }
        push_opening(out, part)?;
        push_formula(out, names, variables, part)?;
        push_closing(out, part)?;
        first = false;
    }
    Ok(())
}
