//! What is known at the beginning of runs without a search: where control is, and the values that variables are given there.

use control_cubes::{Layout, Place};
use st_form::{Form, SharedForm};
use st_linear::Lin;
use st_memory::Memory;
use std::alloc::Global;

/// Where control is at the beginning, and the variables whose values are known there.
#[derive(Drop)]
pub(crate) struct Beginning {
    first: Vec<Place>,
    truths: Vec<(u32, bool)>,
    numbers: Vec<(u32, i128)>,
}

/// The value of a variable with this coefficient, if that is 1 or -1, where it and this constant make 0.
fn root(coefficient: i128, constant: i128) -> Option<i128> {
    match coefficient {
        1 => constant.checked_neg(),
        -1 => Some(constant),
        _ => None,
    }
}

/// The variable of a form over one variable, and its value where the form is 0.
fn solution(form: &Lin) -> Option<(u32, i128)> {
    match form.entries() {
        [entry] => {
            let value = root(entry.1, form.constant())?;
            Some((entry.0, value))
        }
        _ => None,
    }
}

impl Beginning {
    /// What a formula says that holds at the beginning, where control is at these places.
    pub(crate) fn new(alloc: Global, first: &[Place], initial: &Form) -> Result<Beginning, Memory> {
        let mut out = Beginning {
            first: Vec::from_slice(alloc, first)?,
            truths: Vec::new(alloc),
            numbers: Vec::new(alloc),
        };
        out.push_form(initial)?;
        Ok(out)
    }

    /// Takes the literals of a formula: of a conjunction those among its parts, and among the parts of these.
    fn push_form(&mut self, form: &Form) -> Result<(), Memory> {
        let Form::And(parts) = form else {
            return self.push_literal(form);
        };
        for part in parts {
            self.push_part(part)?;
        }
        Ok(())
    }

    fn push_part(&mut self, form: &Form) -> Result<(), Memory> {
        let Form::And(parts) = form else {
            return self.push_literal(form);
        };
        for part in parts {
            self.push_literal(part)?;
        }
        Ok(())
    }

    fn push_literal(&mut self, form: &Form) -> Result<(), Memory> {
        match form {
            Form::BoolVar(variable) => self.push_truth(*variable, true),
            Form::Not(part) => self.push_negation(part),
            Form::Equal(row) => self.push_equation(row),
            _ => Ok(()),
        }
    }

    fn push_negation(&mut self, form: &Form) -> Result<(), Memory> {
        match form {
            Form::BoolVar(variable) => self.push_truth(*variable, false),
            _ => Ok(()),
        }
    }

    fn push_truth(&mut self, variable: u32, value: bool) -> Result<(), Memory> {
        self.truths.push((variable, value))?;
        Ok(())
    }

    fn push_equation(&mut self, row: &Lin) -> Result<(), Memory> {
        if let Some(pair) = solution(row) {
            self.numbers.push(pair)?;
        }
        Ok(())
    }

    fn number(&self, variable: u32) -> Option<i128> {
        for (other, number) in &self.numbers {
            if *other == variable {
                return Some(*number);
            }
        }
        None
    }

    fn truth(&self, variable: u32) -> Option<bool> {
        for (other, truth) in &self.truths {
            if *other == variable {
                return Some(*truth);
            }
        }
        None
    }

    /// The value of a form; `None` where it isn't known, or is too large.
    fn value(&self, row: &Lin) -> Option<i128> {
        let mut sum = row.constant();
        for entry in row.entries() {
            let number = self.number(entry.0)?;
            sum = sum.checked_add(entry.1.checked_mul(number)?)?;
        }
        Some(sum)
    }

    /// Whether control is at a location; `None` where it isn't told where its component is.
    fn is_at(&self, layout: &Layout, location: u32) -> Option<bool> {
        let place = layout.of_location(location)?;
        for first in &self.first {
            if first.component == place.component {
                return Some(first.number == place.number);
            }
        }
        None
    }

    /// Whether one of the formulas is known to be false.
    pub(crate) fn refutes(&self, layout: &Layout, forms: &[SharedForm]) -> bool {
        for form in forms {
            if known_truth(form.get(), layout, self) == Some(false) {
                return true;
            }
        }
        false
    }
}

/// The truth value of a formula at the beginning, where it is known.
#[cycle(known)]
fn known_truth(form: &Form, layout: &Layout, beginning: &Beginning) -> Option<bool> {
    match form {
        Form::True => Some(true),
        Form::False => Some(false),
        Form::Row(row) => beginning.value(row).map(|value| value >= 0),
        Form::Equal(row) => beginning.value(row).map(|value| value == 0),
        Form::BoolVar(variable) => beginning.truth(*variable),
        Form::At(location) => beginning.is_at(layout, *location),
        Form::Not(part) => known_truth(part, layout, beginning).map(|truth| !truth),
        Form::And(parts) => known_of_all(parts, layout, beginning, false),
        Form::Or(parts) => known_of_all(parts, layout, beginning, true),
    }
}

/// The truth value of a conjunction or a disjunction: that which one part decides for all, or the other where all parts have it.
#[cycle(known)]
fn known_of_all(
    parts: &[Form],
    layout: &Layout,
    beginning: &Beginning,
    deciding: bool,
) -> Option<bool> {
    let mut all = true;
    for part in parts {
        match known_truth(part, layout, beginning) {
            Some(truth) if truth == deciding => return Some(deciding),
            Some(_) => {}
            None => all = false,
        }
    }
    if all { Some(!deciding) } else { None }
}
