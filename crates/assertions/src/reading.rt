//! Formulas and integer expressions at the front of tokens.
//!
//! Each is read as far as the grammar goes on, without a look at its names, and then typed in text order. So a fault of the
//! grammar, wherever it stands in the formula, comes before every rule of typing. A token fault directly behind a whole
//! formula isn't met.

ghost use Rattle.st_form.specs.Plain.{plain};
ghost use Rattle.st_tokens.specs.Stream.{stream};
ghost use Rattle.expression_typer.specs.Naming.{names_of};
ghost use Rattle.st_reading.specs.Reading.{Reads};
ghost use Rattle.assertions.specs.Faults.{see};
ghost use Rattle.assertions.specs.Reading.{form_of, linear_of};

use crate::fault::FormFault;
use crate::names::Table;
use expression_parser::{LEVELS, expression, sum};
use expression_typer::{as_number, as_truth, typed_by};
use st_form::{Form, Lin};
use st_program::NameTable;
use st_tokens::Tokens;
use std::alloc::Global;

/// Reads the longest formula at the front of the tokens, and stops before the first token that doesn't continue it. Variables
/// are those of the whole program, and `at` stands before a label.
///
/// That it is the longest, and that a fault of the grammar is the first, are `formulas_are_longest` and
/// `formulas_first_fault` of `expression_parser::laws`; that it is typed to its meaning, or refused for the lowest rule that is
/// broken at the first place, are `first_is_told_by_names` and `least_is_told_by_names` of
/// `expression_typer::laws`.
#[tactic(auto, unfolding(crate::specs::Reading::form_of))]
pub fn read_form(
    alloc: Global,
    tokens: &mut Tokens<'_>,
    names: &NameTable,
) -> Result<Form, FormFault>
    ensures { Reads see plain result (stream tokens.new) (form_of (names_of names.now) (stream tokens.old)) }
{
    let formula = expression(alloc, true, LEVELS, tokens)?;
    let value = typed_by(alloc, &Table { names }, &formula)?;
    Ok(as_truth(formula.place, value)?)
}

/// Reads an integer expression at the front of the tokens, as `read_form` reads a formula: what its definition reads. No law
/// says of sums that the longest is read.
#[tactic(auto, unfolding(crate::specs::Reading::linear_of))]
pub fn read_linear(
    alloc: Global,
    tokens: &mut Tokens<'_>,
    names: &NameTable,
) -> Result<Lin, FormFault>
    ensures { Reads see (λ f. f) result (stream tokens.new) (linear_of (names_of names.now) (stream tokens.old)) }
{
    let sum = sum(alloc, true, LEVELS, tokens)?;
    let value = typed_by(alloc, &Table { names }, &sum)?;
    Ok(as_number(sum.place, value)?)
}
