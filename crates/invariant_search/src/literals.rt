//! What holds before a mode that leads into a cube, as far as literals say it.
//!
//! The mode's guard and the cube's literals before the mode are a cube again, but for boolean variables that become what is no literal. So
//! where one literal contradicts another the mode doesn't lead into the cube, which needs no search; and what was found of one cube is so
//! of another one, where each literal of the first follows from one of the other (`Cube::covers`).

use crate::setting::Setting;
use crate::step::Step;
use control_cubes::{Cube, CubeFault};
use st_form::Form;
use st_linear::Lin;
use st_memory::Memory;
use std::alloc::Global;

/// The literals that hold before a mode that leads into a cube. The places of components that the mode moves aren't told: they are the
/// mode's.
#[derive(Drop)]
pub(crate) struct Literals {
    before: Cube,
    /// The cube's boolean variables that become what is no literal, with their values in the cube.
    assigned: Vec<(u32, bool)>,
    contradicted: bool,
}

/// Whether two rows are never both at least 0, as their sum is a negative number.
fn are_opposed(one: &Lin, other: &Lin) -> bool {
    if one.entries().len() != other.entries().len() {
        return false;
    }
    for (entry, counter) in one.entries().iter().zip(other.entries()) {
        if entry.0 != counter.0 || entry.1.checked_neg() != Some(counter.1) {
            return false;
        }
    }
    matches!(one.constant().checked_add(other.constant()), Some(sum) if sum < 0)
}

/// Whether the row is opposed to one of these.
fn is_opposed(row: &Lin, rows: &[Lin]) -> bool {
    for other in rows {
        if are_opposed(row, other) {
            return true;
        }
    }
    false
}

/// Whether two of the rows are opposed.
fn are_some_opposed(rows: &[Lin]) -> bool {
    for row in rows {
        if is_opposed(row, rows) {
            return true;
        }
    }
    false
}

impl Literals {
    fn push_constant(&mut self, value: bool) {
        if !value {
            self.contradicted = true;
        }
    }

    fn push_truth(&mut self, variable: u32, value: bool) -> Result<(), CubeFault> {
        match self.before.truth(variable) {
            Some(held) => {
                self.push_constant(held == value);
                Ok(())
            }
            None => self.before.push_truth(variable, value),
        }
    }

    fn push_row(&mut self, alloc: Global, row: &Lin) -> Result<(), CubeFault> {
        if row.entries().is_empty() {
            self.push_constant(row.constant() >= 0);
        }
        self.before.push_row(alloc, row)
    }

    fn push_equation(&mut self, alloc: Global, row: &Lin) -> Result<(), CubeFault> {
        self.push_row(alloc, row)?;
        self.push_row(alloc, &row.negated(alloc)?)
    }

    /// Adds a formula with this truth value; whether it is a literal that is told.
    fn push_plain(&mut self, alloc: Global, form: &Form, value: bool) -> Result<bool, CubeFault> {
        match form {
            Form::True => self.push_constant(value),
            Form::False => self.push_constant(!value),
            Form::BoolVar(variable) => self.push_truth(*variable, value)?,
            Form::Row(row) if value => self.push_row(alloc, row)?,
            Form::Equal(row) if value => self.push_equation(alloc, row)?,
            _ => return Ok(false),
        }
        Ok(true)
    }

    /// The same, where the formula may be a negation.
    fn push_literal(&mut self, alloc: Global, form: &Form, value: bool) -> Result<bool, CubeFault> {
        match form {
            Form::Not(part) => self.push_plain(alloc, part, !value),
            _ => self.push_plain(alloc, form, value),
        }
    }

    /// Adds the literals among formulas.
    fn push_literals(&mut self, alloc: Global, forms: &[Form]) -> Result<(), CubeFault> {
        for form in forms {
            let _ = self.push_literal(alloc, form, true)?;
        }
        Ok(())
    }

    /// Adds the literals of what enables a mode: of a conjunction those among its parts, and among the parts of these.
    fn push_enabled(&mut self, alloc: Global, enabled: &Form) -> Result<(), CubeFault> {
        let Form::And(parts) = enabled else {
            let _ = self.push_literal(alloc, enabled, true)?;
            return Ok(());
        };
        self.push_literals(alloc, parts)?;
        for part in parts {
            if let Form::And(inner) = part {
                self.push_literals(alloc, inner)?;
            }
        }
        Ok(())
    }

    /// Adds what the cube says of a boolean variable.
    fn push_truth_of(
        &mut self,
        alloc: Global,
        step: &Step<'_>,
        variable: u32,
        value: bool,
    ) -> Result<(), CubeFault> {
        let Some(form) = step.truth_behind(variable) else {
            return self.push_truth(variable, value);
        };
        if !self.push_literal(alloc, form, value)? {
            self.assigned.push((variable, value))?;
        }
        Ok(())
    }

    /// Adds what the cube says of variables.
    fn push_cube(&mut self, alloc: Global, step: &Step<'_>, cube: &Cube) -> Result<(), CubeFault> {
        for (variable, value) in &cube.truths {
            self.push_truth_of(alloc, step, *variable, *value)?;
        }
        for row in &cube.rows {
            self.push_row(alloc, &row.replace(alloc, &step.change.numbers)?)?;
        }
        Ok(())
    }

    /// Whether one literal contradicts another.
    pub(crate) fn are_contradicted(&self) -> bool {
        self.contradicted || are_some_opposed(&self.before.rows)
    }

    /// Whether each of these follows from one of the others.
    pub(crate) fn follow_from(&self, others: &Literals) -> bool {
        self.before.covers(&others.before)
            && self
                .assigned
                .iter()
                .all(|pair| others.assigned.contains(pair))
    }
}

/// The cube's places of components that the mode doesn't move; of the others all.
fn unmoved(
    alloc: Global,
    setting: &Setting<'_>,
    cube: &Cube,
    step: &Step<'_>,
) -> Result<Cube, Memory> {
    let mut out = Cube {
        places: Vec::from_slice(alloc, &cube.places)?,
        truths: Vec::new(alloc),
        rows: Vec::new(alloc),
    };
    for place in &step.behind {
        let full = setting.layout.full_of(place.component as usize);
        out.set_places(place.component, full);
    }
    Ok(out)
}

/// The literals that hold before a mode that leads into a cube.
pub(crate) fn literals_before(
    alloc: Global,
    setting: &Setting<'_>,
    cube: &Cube,
    step: &Step<'_>,
) -> Result<Literals, CubeFault> {
    let mut literals = Literals {
        before: unmoved(alloc, setting, cube, step)?,
        assigned: Vec::new(alloc),
        contradicted: false,
    };
    literals.push_enabled(alloc, step.enabled.get())?;
    literals.push_cube(alloc, step, cube)?;
    Ok(literals)
}
