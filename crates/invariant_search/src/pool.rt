//! Rows that a program's texts speak of: those of tests, of the beginning, of goals and of assignments, and of compared variables that
//! they are equal, or that one is greater.
//!
//! A generalized cube's constants are tried out of these first, as interpolants are made of a program's own predicates (Graf and Saïdi,
//! Construction of abstract state graphs with PVS, 1997).

use crate::step::Step;
use control_cubes::{CubeFault, is_parallel, opposite, tidy};
use st_form::Form;
use st_linear::Lin;
use std::alloc::Global;

/// Of each row or its opposite one, and the other at the same place of the other list.
#[derive(Drop)]
pub(crate) struct Pool {
    pub(crate) rows: Vec<Lin>,
    pub(crate) opposites: Vec<Lin>,
}

fn is_same(row: &Lin, other: &Lin) -> bool {
    row.constant() == other.constant() && is_parallel(row, other)
}

fn has(rows: &[Lin], wanted: &Lin) -> bool {
    for row in rows {
        if is_same(row, wanted) {
            return true;
        }
    }
    false
}

impl Pool {
    pub(crate) fn new(alloc: Global) -> Pool {
        Pool {
            rows: Vec::new(alloc),
            opposites: Vec::new(alloc),
        }
    }

    /// Whether the row or its opposite stands there.
    pub(crate) fn knows(&self, row: &Lin) -> bool {
        has(&self.rows, row) || has(&self.opposites, row)
    }

    /// Takes a row, unless it or its opposite stands there, or it has no variables.
    pub(crate) fn push(&mut self, alloc: Global, row: &Lin) -> Result<(), CubeFault> {
        if row.entries().is_empty() {
            return Ok(());
        }
        self.push_tidy(alloc, tidy(alloc, row)?)
    }

    /// Takes a tidy row, unless it or its opposite stands there.
    fn push_tidy(&mut self, alloc: Global, row: Lin) -> Result<(), CubeFault> {
        if self.knows(&row) {
            return Ok(());
        }
        self.opposites.push(opposite(alloc, &row)?)?;
        self.rows.push(row)?;
        Ok(())
    }

    /// Takes a row and its negation: where both hold, the form is 0.
    fn push_both(&mut self, alloc: Global, row: &Lin) -> Result<(), CubeFault> {
        self.push(alloc, row)?;
        self.push(alloc, &row.negated(alloc)?)
    }

    /// Takes the rows of a formula.
    pub(crate) fn push_form(&mut self, alloc: Global, form: &Form) -> Result<(), CubeFault> {
        push_rows_of(alloc, form, self)
    }

    /// Takes the rows of formulas.
    pub(crate) fn push_forms(&mut self, alloc: Global, forms: &[Form]) -> Result<(), CubeFault> {
        push_rows_of_all(alloc, forms, self)
    }

    /// Takes the rows of a mode: those of its guard, and that a variable is what it becomes, where that doesn't speak of it.
    pub(crate) fn push_step(&mut self, alloc: Global, step: &Step<'_>) -> Result<(), CubeFault> {
        self.push_form(alloc, step.enabled.get())?;
        for (variable, row) in &step.change.numbers {
            if !row.entries().iter().any(|entry| entry.0 == *variable) {
                self.push_both(alloc, &difference(alloc, *variable, row)?)?;
            }
        }
        Ok(())
    }

    /// Takes of each row over one or two variables those that compare its form with 0, and of two also with 1.
    pub(crate) fn push_comparisons(&mut self, alloc: Global) -> Result<(), CubeFault> {
        for place in 0..self.rows.len() {
            self.push_from_zero(alloc, place)?;
            self.push_from_one(alloc, place)?;
        }
        Ok(())
    }

    /// Takes those that compare the form of the row at a place with 0, if it is over one or two variables.
    fn push_from_zero(&mut self, alloc: Global, place: usize) -> Result<(), CubeFault> {
        match self.rows.get(place) {
            Some(row) if row.entries().len() <= 2 => {
                let other = with_constant(alloc, row, 0)?;
                self.push_both(alloc, &other)
            }
            _ => Ok(()),
        }
    }

    /// Takes the one that compares the form of the row at a place with 1, if it is over two variables.
    fn push_from_one(&mut self, alloc: Global, place: usize) -> Result<(), CubeFault> {
        match self.rows.get(place) {
            Some(row) if row.entries().len() == 2 => {
                let other = with_constant(alloc, row, -1)?;
                self.push(alloc, &other)
            }
            _ => Ok(()),
        }
    }

    /// The constants above its own of the rows that are parallel to one, the weakest first.
    pub(crate) fn weaker_constants(
        &self,
        alloc: Global,
        row: &Lin,
    ) -> Result<Vec<i128>, CubeFault> {
        let mut out = Vec::new(alloc);
        for other in self.rows.iter().chain(self.opposites.iter()) {
            if is_parallel(other, row) && other.constant() > row.constant() {
                out.push(other.constant())?;
            }
        }
        out.sort_unstable();
        out.dedup();
        out.reverse();
        Ok(out)
    }
}

/// A variable less a form.
fn difference(alloc: Global, variable: u32, form: &Lin) -> Result<Lin, CubeFault> {
    let opposite = form.negated(alloc)?;
    Ok(Lin::variable(alloc, variable)?.add(alloc, &opposite)?)
}

#[cycle(rows)]
fn push_rows_of(alloc: Global, form: &Form, pool: &mut Pool) -> Result<(), CubeFault> {
    match form {
        Form::Row(row) => pool.push(alloc, row),
        Form::Equal(row) => pool.push_both(alloc, row),
        Form::Not(part) => push_rows_of(alloc, part, pool),
        Form::And(parts) | Form::Or(parts) => push_rows_of_all(alloc, parts, pool),
        Form::True | Form::False | Form::BoolVar(_) | Form::At(_) => Ok(()),
    }
}

#[cycle(rows)]
fn push_rows_of_all(alloc: Global, forms: &[Form], pool: &mut Pool) -> Result<(), CubeFault> {
    for form in forms {
        push_rows_of(alloc, form, pool)?;
    }
    Ok(())
}

/// The row with another constant. `TooLarge` where that is of size 2^100 or more.
pub(crate) fn with_constant(alloc: Global, row: &Lin, constant: i128) -> Result<Lin, CubeFault> {
    match Lin::of_entries(alloc, constant, row.entries())? {
        Some(other) => Ok(other),
        None => Err(CubeFault::TooLarge),
    }
}
