//! Locations and boolean variables in formulas.

use st_form::Form;

/// A location or a boolean variable.
#[derive(Clone, Copy)]
pub(crate) enum Literal {
    Location(u32),
    Truth(u32),
}

/// The first one in a formula, from left to right.
#[cycle(first)]
pub(crate) fn first_literal(form: &Form) -> Option<Literal> {
    match form {
        Form::True | Form::False | Form::Row(_) | Form::Equal(_) => None,
        Form::BoolVar(var) => Some(Literal::Truth(*var)),
        Form::At(location) => Some(Literal::Location(*location)),
        Form::Not(part) => first_literal(part),
        Form::And(parts) | Form::Or(parts) => first_of(parts),
    }
}

#[cycle(first)]
fn first_of(forms: &[Form]) -> Option<Literal> {
    for form in forms {
        if let Some(literal) = first_literal(form) {
            return Some(literal);
        }
    }
    None
}

/// The literal that a formula is or denies, where it is no more than that, and all but one of the parts that its decision makes close at
/// once. A denied location leaves many.
pub(crate) fn whole_literal(form: &Form) -> Option<Literal> {
    match form {
        Form::BoolVar(var) => Some(Literal::Truth(*var)),
        Form::At(location) => Some(Literal::Location(*location)),
        Form::Not(part) => match &**part {
            Form::BoolVar(var) => Some(Literal::Truth(*var)),
            _ => None,
        },
        Form::True | Form::False | Form::Row(_) | Form::Equal(_) => None,
        Form::And(_) | Form::Or(_) => None,
    }
}

/// The location that a formula denies, where it is no more than that.
pub(crate) fn denied_location(form: &Form) -> Option<u32> {
    match form {
        Form::Not(part) => match &**part {
            Form::At(location) => Some(*location),
            _ => None,
        },
        _ => None,
    }
}

/// What is decided of a number, if anything is.
fn decided_of(table: &[Option<bool>], number: u32) -> Option<bool> {
    table.get(number as usize).copied().flatten()
}

/// The truth of a location or a boolean variable, if it is decided.
fn truth_of(form: &Form, truths: &[Option<bool>], places: &[Option<bool>]) -> Option<bool> {
    match form {
        Form::BoolVar(var) => decided_of(truths, *var),
        Form::At(location) => decided_of(places, *location),
        _ => None,
    }
}

/// Whether a formula is a location or a boolean variable, or denies one, and is decided to be false.
pub(crate) fn is_refuted(form: &Form, truths: &[Option<bool>], places: &[Option<bool>]) -> bool {
    match form {
        Form::Not(part) => truth_of(part, truths, places) == Some(true),
        _ => truth_of(form, truths, places) == Some(false),
    }
}

fn is_decided(table: &[Option<bool>], number: u32) -> bool {
    match table.get(number as usize) {
        Some(decided) => decided.is_some(),
        None => false,
    }
}

/// Whether a literal of a formula is decided.
#[cycle(touches)]
pub(crate) fn touches(form: &Form, truths: &[Option<bool>], places: &[Option<bool>]) -> bool {
    match form {
        Form::True | Form::False | Form::Row(_) | Form::Equal(_) => false,
        Form::BoolVar(var) => is_decided(truths, *var),
        Form::At(location) => is_decided(places, *location),
        Form::Not(part) => touches(part, truths, places),
        Form::And(parts) | Form::Or(parts) => touches_any(parts, truths, places),
    }
}

#[cycle(touches)]
fn touches_any(forms: &[Form], truths: &[Option<bool>], places: &[Option<bool>]) -> bool {
    for form in forms {
        if touches(form, truths, places) {
            return true;
        }
    }
    false
}
