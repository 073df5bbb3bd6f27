//! Values of forms and formulas in a store, each exact, or too large where a product or a partial sum on the way has size
//! 2^126 or more. Formulas are in `formulas`.

ghost use Rattle.std.specs.Prelude.{◌≡◌, ◌+ℤ◌, ◌*ℤ◌, false};
ghost use Rattle.st_linear.specs.Linear.{is_wide, value, entries_value};
ghost use Rattle.st_form.specs.Plain.{plain};
ghost use Rattle.st_program.specs.Plain.{plain_term};
ghost use Rattle.spl_semantics.specs.Stores.{holds};
ghost use Rattle.spl_semantics.specs.Data.{store_of, datum_of};
ghost use Rattle.spl_semantics.specs.Limits.{wide_on, wide_form, wide_formula, wide_term};
ghost use Rattle.spl_semantics.specs.Answers.{Answers};

use crate::faults::MoveFault;
use crate::formulas::is_true_at;
use st_form::{Form, Lin};
use st_program::{Datum, Value};

/// A value is given up where a number on the way to it has this size or more.
const WIDE: u128 = 1 << 126;

/// The number of a variable, or 0 where it has none.
fn number_at(store: &[Datum], variable: u32) -> i128
    ensures { result ≡ (store_of store.now).numbers variable }
{
    match store.get(variable as usize) {
        Some(Datum::Number(number)) => *number,
        Some(Datum::Truth(_)) => 0,
        None => 0,
    }
}

/// A product on the way to a value.
#[tactic(auto, unfolding(st_linear::specs::Linear::is_wide))]
fn product(x: &i128, y: &i128) -> Result<i128, MoveFault>
    ensures { Answers (λ z. z) result (is_wide (x.now *ℤ y.now)) (x.now *ℤ y.now) }
{
    match x.checked_mul(*y) {
        Some(product) => {
            if product.unsigned_abs() < WIDE {
                Ok(product)
            } else {
                Err(MoveFault::ValueLimit)
            }
        }
        None => Err(MoveFault::ValueLimit),
    }
}

/// A partial sum on the way to a value.
#[tactic(auto, unfolding(st_linear::specs::Linear::is_wide))]
fn sum(x: &i128, y: &i128) -> Result<i128, MoveFault>
    requires x_narrow { is_wide x.now ≡ false }
    requires y_narrow { is_wide y.now ≡ false }
    ensures { Answers (λ z. z) result (is_wide (x.now +ℤ y.now)) (x.now +ℤ y.now) }
{
    let sum = *x + *y;
    if sum.unsigned_abs() < WIDE {
        Ok(sum)
    } else {
        Err(MoveFault::ValueLimit)
    }
}

/// The value of the entries on top of a number.
pub fn sum_of(store: &[Datum], entries: &[(u32, i128)], constant: i128) -> Result<i128, MoveFault>
    requires { is_wide constant ≡ false }
    ensures { Answers (λ z. z) result
        (wide_on (store_of store.now).numbers entries.now constant)
        (constant +ℤ entries_value (store_of store.now).numbers entries.now) }
{
    let mut total = constant;
    for entry in entries {
        let part = product(&entry.1, &number_at(store, entry.0))?;
        total = sum(&total, &part)?;
    }
    Ok(total)
}

/// The value of a form.
pub fn value_of(form: &Lin, store: &[Datum]) -> Result<i128, MoveFault>
    ensures { Answers (λ z. z) result
        (wide_form form.now (store_of store.now))
        (value (store_of store.now).numbers form.now) }
{
    sum_of(store, form.entries(), form.constant())
}

/// Whether a formula of a program holds, which speaks of no location.
pub fn is_true(form: &Form, store: &[Datum]) -> Result<bool, MoveFault>
    ensures { Answers (λ b. b) result
        (wide_formula (plain form.now) (store_of store.now))
        (holds (plain form.now) (store_of store.now)) }
{
    is_true_at(form, store, &[])
}

/// What a right side gives.
pub fn datum_of(side: &Value, store: &[Datum]) -> Result<Datum, MoveFault>
    ensures { Answers (λ d. d) result
        (wide_term (plain_term side.now) (store_of store.now))
        (datum_of (plain_term side.now) (store_of store.now)) }
{
    match side {
        Value::Number(form) => Ok(Datum::Number(value_of(form, store)?)),
        Value::Truth(form) => Ok(Datum::Truth(is_true(form, store)?)),
    }
}
