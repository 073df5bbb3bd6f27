//! Equations as the steps of a proof text.

ghost use Rattle.std.specs.Prelude.{◌≡◌, ◌++◌, IfOk, OnOk, length};
ghost use Rattle.std.specs.Option.{option_map};
ghost use Rattle.linear_invariants.specs.Plain.{plain_equation};
ghost use Rattle.st_form.specs.Plain.{plain};
ghost use Rattle.equation_writer.specs.Proper.{IsProper};
ghost use Rattle.equation_writer.specs.Sentences.{are_labelled, invariance_text, sentence, left_out_text};

use crate::forms::form_of;
use crate::texts::push_formula;
use control_states::Components;
use linear_invariants::Equation;
use st_form::Form;
use st_memory::Memory;
use std::alloc::Global;
use step_report::{NameTable, push_number, push_text};

/// Whether each location has a label.
fn are_labelled(names: &NameTable, places: &[(u32, i128)]) -> bool
    ensures { result ≡ are_labelled names.now places.now }
{
    for t in places {
        if names.location_name(t.0).is_none() {
            return false;
        }
    }
    true
}

/// A formula as the invariance of a number.
fn invariance_text(
    alloc: Global,
    names: &NameTable,
    variables: u32,
    number: u64,
    form: &Form,
) -> Result<Vec<u8>, Memory>
    requires { variables ≡ length names.now.variables }
    ensures { IfOk result (λ v. v.items ≡ invariance_text names.now number (plain form.now)) }
{
    let mut out = Vec::new(alloc);
    push_text(&mut out, b"invariant eq")?;
    push_number(&mut out, number)?;
    push_text(&mut out, b": ")?;
    push_formula(&mut out, names, variables, form)?;
    push_text(&mut out, b";")?;
    Ok(out)
}

/// An equation as the invariance of a number, or `None` exactly where its formula isn't short or a location has no label.
/// `variables` is the number of variables.
pub fn sentence(
    alloc: Global,
    components: &Components,
    names: &NameTable,
    variables: u32,
    number: u64,
    equation: &Equation,
) -> Result<Option<Vec<u8>>, Memory>
    requires variables { variables ≡ length names.now.variables }
    requires proper { IsProper (plain_equation equation.now) }
    ensures { IfOk result (λ o. option_map (λ v. v.items) o ≡ sentence components.now names.now number (plain_equation equation.now)) }
{
    if !are_labelled(names, &equation.places) {
        return Ok(None);
    }
    match form_of(alloc, components, equation)? {
        Some(form) => Ok(Some(invariance_text(alloc, names, variables, number, &form)?)),
        None => Ok(None),
    }
}

/// Appends what stands in the place of an equation that is left out: a comment.
pub fn push_left_out(out: &mut Vec<u8>, number: u64) -> Result<(), Memory>
    ensures { OnOk result (out.new.items ≡ out.old.items ++ left_out_text number) }
{
    push_text(out, b"% left out: eq")?;
    push_number(out, number)
}
