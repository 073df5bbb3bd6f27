//! Values that a mode gives, by rising variable.

ghost use Rattle.std.specs.Prelude.{◌≡◌, [], drop, OnOk, IfOk};
ghost use Rattle.st_program.specs.Groups.{inserted};
ghost use Rattle.st_program.specs.Plain.{plain_term, plain_targets};
ghost use Rattle.spl_translation.specs.Translation.{number_put, truth_put, numbers_of, truths_of};
ghost use Rattle.spl_translation.specs.Making.{plain_truths, place_of, begins_with};

use st_form::{Form, Lin};
use st_memory::Memory;
use st_program::Value;
use std::alloc::Global;

/// The numbers and the truth values that are given, each by rising variable.
#[derive(Drop)]
pub struct Values {
    pub numbers: Vec<(u32, Lin)>,
    pub truths: Vec<(u32, Form)>,
}

impl Values {
    /// No value.
    pub fn none(alloc: Global) -> Values
        ensures numbers { result.numbers.items ≡ [] }
        ensures truths { result.truths.items ≡ [] }
    {
        Values {
            numbers: Vec::new(alloc),
            truths: Vec::new(alloc),
        }
    }
}

/// Puts the value of a variable in its place.
pub fn put(values: &mut Values, var: u32, value: Value) -> Result<(), Memory>
    ensures numbers { OnOk result (values.new.numbers.items ≡ number_put var (plain_term value) values.old.numbers.items) }
    ensures truths { OnOk result (plain_truths values.new.truths.items ≡ truth_put var (plain_term value) (plain_truths values.old.truths.items)) }
{
    match value {
        Value::Number(form) => put_pair(&mut values.numbers, var, form),
        Value::Truth(form) => put_pair(&mut values.truths, var, form),
    }
}

/// An equal right side.
pub fn copy_value(alloc: Global, value: &Value) -> Result<Value, Memory>
    ensures { IfOk result (λ v. plain_term v ≡ plain_term value.now) }
{
    match value {
        Value::Number(form) => Ok(Value::Number(form.copy(alloc)?)),
        Value::Truth(form) => Ok(Value::Truth(form.copy(alloc)?)),
    }
}

/// The right sides of an assignment by rising variable. The last target is put first, so that of two values of one
/// variable the first would stand; targets of a program are distinct. There are at most 64 variables, so putting a value
/// in its place takes no longer than so many steps.
pub fn values_of(alloc: Global, targets: &[(u32, Value)]) -> Result<Values, Memory>
    ensures numbers { IfOk result (λ v. v.numbers.items ≡ numbers_of (plain_targets targets.now)) }
    ensures truths { IfOk result (λ v. plain_truths v.truths.items ≡ truths_of (plain_targets targets.now)) }
{
    let mut values = Values::none(alloc);
    let mut left = targets.len();
    while left > 0 {
        left -= 1;
        let target = &targets[left];
        put(&mut values, target.0, copy_value(alloc, &target.1)?)?;
    }
    Ok(values)
}

/// Puts a pair in its place, in the place of one with the same variable if there is one.
fn put_pair<T: Drop>(pairs: &mut Vec<(u32, T)>, var: u32, value: T) -> Result<(), Memory>
    ensures { OnOk result (pairs.new.items ≡ inserted var value pairs.old.items) }
{
    let place = place_of(pairs, var);
    if stands_at(pairs, place, var) {
        pairs[place] = (var, value);
    } else {
        pairs.insert(place, (var, value))?;
    }
    Ok(())
}

/// Whether the pair at this place is of the variable.
fn stands_at<T>(pairs: &[(u32, T)], place: usize, var: u32) -> bool
    ensures { result ≡ begins_with var (drop place pairs.now) }
{
    match pairs.get(place) {
        Some(pair) => pair.0 == var,
        None => false,
    }
}

/// How many pairs stand before the first whose variable isn't below this one.
fn place_of<T>(pairs: &[(u32, T)], var: u32) -> usize
    ensures { result ≡ place_of var pairs.now }
{
    for (place, pair) in pairs.iter().enumerate() {
        if pair.0 >= var {
            return place;
        }
    }
    pairs.len()
}
