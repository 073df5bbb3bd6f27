//! Simplified literals. A row is divided by the greatest common divisor of its coefficients and its constant rounded down, which
//! no whole value can tell from the row itself (the cut of Gomory and Chvátal: Schrijver, Theory of Linear and Integer Programming,
//! 1986, chapter 23). An equation whose constant the divisor does not divide is false. Where an equation is denied, the form is
//! above 0 or below, so two rows take its place.

ghost use Rattle.std.specs.Prelude.{◌≡◌, ◌^◌, ◌<◌, IfOk, unsigned_abs, if◌then◌else◌, slice_index_or, None};
ghost use Rattle.st_form.specs.Formula.{truth_value};
ghost use Rattle.st_form.specs.Plain.{plain};
ghost use Rattle.st_form.specs.Simple.{signed, simple_row, simple_equal, simple_apart, leading, literal};
ghost use Rattle.st_linear.specs.Simple.{complement};

use crate::formulas::Form;
use st_linear::Lin;
use st_memory::Memory;
use std::alloc::Global;

/// A truth value as a formula.
pub fn constant(value: bool) -> Form
    ensures { plain result ≡ truth_value value }
{
    if value { Form::True } else { Form::False }
}

/// What a table knows of a number.
pub fn known(table: &[Option<bool>], number: u32) -> Option<bool>
    ensures { result ≡ slice_index_or table.now number None }
{
    match table.get(number as usize) {
        Some(known) => *known,
        None => None,
    }
}

/// A variable or a location under a sign, or its truth value where that is decided.
pub fn literal(alloc: Global, f: Form, known: Option<bool>, plus: bool) -> Result<Form, Memory>
    ensures { IfOk result (λ g. plain g ≡ literal plus (plain f) known) }
{
    match known {
        Some(value) => Ok(constant(if plus { value } else { !value })),
        None => signed(alloc, f, plus),
    }
}

/// A formula with a sign before it.
#[tactic(auto, using(crate::proofs::Nodes::nodes))]
fn signed(alloc: Global, f: Form, plus: bool) -> Result<Form, Memory>
    ensures { IfOk result (λ g. plain g ≡ signed plus (plain f)) }
{
    if plus {
        Ok(f)
    } else {
        Ok(Form::Not(Box::new(alloc, f)?))
    }
}

/// A simplified row under a sign: where it is denied, its form is below 0.
pub fn signed_row(alloc: Global, f: &Lin, plus: bool) -> Result<Form, Memory>
    requires { unsigned_abs f.now.constant < 2 ^ 99 }
    ensures { IfOk result (λ g. plain g ≡ simple_row (if plus then f.now else complement f.now)) }
{
    if plus {
        simple_row(alloc, f)
    } else {
        let denied = f.complement(alloc)?;
        simple_row(alloc, &denied)
    }
}

/// A simplified row.
fn simple_row(alloc: Global, f: &Lin) -> Result<Form, Memory>
    ensures { IfOk result (λ g. plain g ≡ simple_row f.now) }
{
    if f.entries().is_empty() {
        return Ok(constant(f.constant() >= 0));
    }
    Ok(Form::Row(f.divided(alloc, f.divisor())?))
}

/// A simplified equation under a sign.
pub fn signed_equal(alloc: Global, f: &Lin, plus: bool) -> Result<Form, Memory>
    requires { unsigned_abs f.now.constant < 2 ^ 99 }
    ensures { IfOk result (λ g. plain g ≡ (if plus then simple_equal f.now else simple_apart f.now)) }
{
    if plus {
        simple_equal(alloc, f)
    } else {
        simple_apart(alloc, f)
    }
}

/// A simplified equation.
fn simple_equal(alloc: Global, f: &Lin) -> Result<Form, Memory>
    ensures { IfOk result (λ g. plain g ≡ simple_equal f.now) }
{
    if f.entries().is_empty() {
        return Ok(constant(f.constant() == 0));
    }
    let divisor = f.divisor();
    if f.constant().unsigned_abs() % divisor != 0 {
        return Ok(Form::False);
    }
    Ok(Form::Equal(leading(alloc, f.divided(alloc, divisor)?)?))
}

/// The form with its first coefficient above 0, which is 0 where the form is.
fn leading(alloc: Global, f: Lin) -> Result<Lin, Memory>
    ensures { IfOk result (λ g. g ≡ leading f) }
{
    match f.entries() {
        [first, ..] if first.1 < 0 => f.negated(alloc),
        _ => Ok(f),
    }
}

/// The simplified denial of an equation.
#[tactic(auto, using(crate::proofs::Nodes::nodes))]
fn simple_apart(alloc: Global, f: &Lin) -> Result<Form, Memory>
    requires { unsigned_abs f.now.constant < 2 ^ 99 }
    ensures { IfOk result (λ g. plain g ≡ simple_apart f.now) }
{
    if f.entries().is_empty() {
        return Ok(constant(f.constant() != 0));
    }
    let divisor = f.divisor();
    if f.constant().unsigned_abs() % divisor != 0 {
        return Ok(Form::True);
    }
    let above = simple_row(alloc, &f.lowered(alloc)?)?;
    let below = simple_row(alloc, &f.complement(alloc)?)?;
    Ok(Form::Or(vec![in alloc; above, below]?))
}
