//! Formulas and integer expressions of a diagram.

ghost use Rattle.std.specs.Prelude.{◌≡◌, ◌≤◌, IfOk};
ghost use Rattle.st_tokens.specs.Stream.{stream};
ghost use Rattle.st_reading.specs.Reading.{Reads, size};
ghost use Rattle.st_form.specs.Plain.{plain};
ghost use Rattle.diagram_reader.specs.Faults.{see};
ghost use Rattle.diagram_reader.specs.Drawn.{setting_view};
ghost use Rattle.diagram_reader.specs.Drawing.{formula_of, sum_of};

use crate::fault::DiagramFault;
use crate::setting::Setting;
use assertions::{read_form, read_linear};
use st_form::{Form, Lin};
use st_tokens::Tokens;
use std::alloc::Global;

/// Reads a formula.
#[tactic(auto, unfolding(crate::specs::Drawing::formula_of))]
pub fn formula(
    alloc: Global,
    setting: &Setting<'_>,
    tokens: &mut Tokens<'_>,
) -> Result<Form, DiagramFault>
    ensures reads { Reads see plain result (stream tokens.new) (formula_of (setting_view setting.now) (stream tokens.old)) }
    ensures shrinks { IfOk result (λ _. size (stream tokens.new) ≤ size (stream tokens.old)) }
{
    Ok(read_form(alloc, tokens, setting.names)?)
}

/// Reads an integer expression.
#[tactic(auto, unfolding(crate::specs::Drawing::sum_of))]
pub fn sum(
    alloc: Global,
    setting: &Setting<'_>,
    tokens: &mut Tokens<'_>,
) -> Result<Lin, DiagramFault>
    ensures reads { Reads see (λ f. f) result (stream tokens.new) (sum_of (setting_view setting.now) (stream tokens.old)) }
    ensures shrinks { IfOk result (λ _. size (stream tokens.new) ≤ size (stream tokens.old)) }
{
    Ok(read_linear(alloc, tokens, setting.names)?)
}
