//! Implicants: of a formula that is true in a state a cube that has the state, in all of whose states the formula is true.
//!
//! From a conjunction all parts are taken, from a disjunction the first that is true in the state; an equation is two rows, and of an
//! equation that doesn't hold the side on which the state lies. This is how IC3 lifts states to cubes (Bradley, SAT-based model
//! checking without unrolling, 2011; Chockler and others, Incremental formal verification of hardware, 2011), here by the formula
//! alone and without a query.

use crate::cube::Cube;
use crate::fault::CubeFault;
use crate::layout::Layout;
use crate::place_set::PlaceSet;
use crate::rows::opposite;
use crate::state::State;
use st_form::Form;
use st_linear::Lin;
use std::alloc::Global;

/// The row that a form is at least 1.
fn positive(alloc: Global, form: &Lin) -> Result<Lin, CubeFault> {
    if form.constant().unsigned_abs() >= 1 << 99 {
        return Err(CubeFault::TooLarge);
    }
    Ok(form.lowered(alloc)?)
}

/// A state, and the program's places.
#[derive(Clone, Copy)]
struct Situation<'a> {
    layout: &'a Layout,
    state: &'a State,
}

/// Keeps the states in which a formula has this truth value for the reason for which it has it in the situation.
#[cycle(implicant)]
fn keep_form(
    alloc: Global,
    form: &Form,
    plus: bool,
    situation: Situation<'_>,
    out: &mut Cube,
) -> Result<(), CubeFault> {
    match form {
        Form::True | Form::False => Ok(()),
        Form::Row(row) => keep_row(alloc, row, plus, out),
        Form::Equal(row) => keep_equation(alloc, row, plus, situation.state, out),
        Form::BoolVar(variable) => out.push_truth(*variable, plus),
        Form::At(location) => {
            keep_location(situation.layout, *location, plus, out);
            Ok(())
        }
        Form::Not(part) => keep_form(alloc, part, !plus, situation, out),
        Form::And(parts) => keep_parts(alloc, parts, plus, plus, situation, out),
        Form::Or(parts) => keep_parts(alloc, parts, plus, !plus, situation, out),
    }
}

/// The same of the parts of a conjunction or a disjunction: of all, or of the first that has this truth value in the situation.
#[cycle(implicant)]
fn keep_parts(
    alloc: Global,
    parts: &[Form],
    plus: bool,
    all: bool,
    situation: Situation<'_>,
    out: &mut Cube,
) -> Result<(), CubeFault> {
    for part in parts {
        let is_so = all || situation.state.satisfies(situation.layout, part) == plus;
        if is_so {
            keep_form(alloc, part, plus, situation, out)?;
        }
        if is_so && !all {
            return Ok(());
        }
    }
    Ok(())
}

fn keep_row(alloc: Global, row: &Lin, plus: bool, out: &mut Cube) -> Result<(), CubeFault> {
    if plus {
        out.push_row(alloc, row)
    } else {
        out.push_row(alloc, &opposite(alloc, row)?)
    }
}

fn keep_equation(
    alloc: Global,
    form: &Lin,
    plus: bool,
    state: &State,
    out: &mut Cube,
) -> Result<(), CubeFault> {
    let negated = form.negated(alloc)?;
    if plus {
        out.push_row(alloc, form)?;
        return out.push_row(alloc, &negated);
    }
    match state.value(form) {
        Some(value) if value > 0 => out.push_row(alloc, &positive(alloc, form)?),
        _ => out.push_row(alloc, &positive(alloc, &negated)?),
    }
}

fn keep_location(layout: &Layout, location: u32, plus: bool, out: &mut Cube) {
    if let Some(place) = layout.of_location(location) {
        let one = PlaceSet::one(place.number);
        let kept = if plus {
            one
        } else {
            layout.full_of(place.component as usize).difference(one)
        };
        out.keep_places(place.component, kept);
    }
}

impl Cube {
    /// Keeps the states of the cube in which a formula has this truth value for the reason for which it has it in a state. `TooLarge`
    /// where a number grows too large.
    pub fn keep_implicant(
        &mut self,
        alloc: Global,
        layout: &Layout,
        form: &Form,
        plus: bool,
        state: &State,
    ) -> Result<(), CubeFault> {
        keep_form(alloc, form, plus, Situation { layout, state }, self)
    }
}
