//! The linear equations of a program as candidates: those between variables and places that hold everywhere, and those between the
//! variables of one component that hold at one of its locations.

ghost use Rattle.std.specs.Prelude.{IfOk};
ghost use Rattle.linear_invariants.specs.Plain.{plain_equation, plain_equations};
ghost use Rattle.equation_writer.specs.Proper.{AreProper, IsProper};

use crate::candidates::{Candidate, Origin};
use crate::subject::Subject;
use clause_texts::{ClauseFault, Comparison, Phrase, Shape, row_text};
use equation_writer::{Equation, form_of, sentence};
use linear_invariants::{FindFault, find};
use location_equations::{LocationEquation, location_equations};
use st_form::Form;
use st_linear::LinFault;
use st_memory::Memory;
use std::alloc::Global;
use transition_system::Fts;

/// What an equation costs its reader beside its bytes.
const EQUATION: usize = 100;

/// The formula of a step that claims an invariance: what stands behind its first colon and before its semicolon.
fn claim_text(step: &[u8]) -> &[u8] {
    let Some(colon) = step.iter().position(|byte| *byte == b':') else {
        return &[];
    };
    match step.get(colon.saturating_add(2)..step.len().saturating_sub(1)) {
        Some(claim) => claim,
        None => &[],
    }
}

/// How the operators of an equation's formula bind: it is a disjunction of cases, or one case.
fn shape_of(claim: &[u8]) -> Shape {
    if claim.windows(2).any(|pair| pair == b"\\/".as_slice()) {
        Shape::Disjunction
    } else {
        Shape::Conjunction
    }
}

/// An equation as a candidate; `None` where it isn't short or a location has no label.
fn equation_candidate(
    alloc: Global,
    subject: &Subject,
    number: u64,
    equation: &Equation,
) -> Result<Option<Candidate>, Memory>
    requires proper { IsProper (plain_equation equation.now) }
{
    let step = sentence(
        alloc,
        &subject.components,
        &subject.names,
        subject.variables,
        number,
        equation,
    )?;
    let Some(step) = step else {
        return Ok(None);
    };
    let Some(form) = form_of(alloc, &subject.components, equation)? else {
        return Ok(None);
    };
    let claim = claim_text(&step);
    let phrase = Phrase {
        text: Vec::from_slice(alloc, claim)?,
        shape: shape_of(claim),
    };
    let cost = phrase.text.len().saturating_add(EQUATION);
    Ok(Some(Candidate {
        origin: Origin::Found,
        cube: None,
        form,
        phrase,
        cost,
    }))
}

/// Appends the candidates of equations.
fn push_candidates(
    alloc: Global,
    subject: &Subject,
    equations: &[Equation],
    out: &mut Vec<Candidate>,
) -> Result<(), Memory>
    requires proper { AreProper (plain_equations equations.now) }
{
    for equation in equations {
        if let Some(candidate) = equation_candidate(alloc, subject, 1, equation)? {
            out.push(candidate)?;
        }
    }
    Ok(())
}

/// The linear equations that hold on every run of a system. What its type keeps is known only where one of its fields is read.
fn proper_equations(alloc: Global, system: &Fts) -> Result<Vec<Equation>, FindFault>
    ensures { IfOk result (λ v. AreProper (plain_equations v.items)) }
{
    let _ = &system.transitions;
    match find(alloc, system) {
        Ok(equations) => Ok(equations),
        Err(fault) => Err(fault),
    }
}

/// The text of an equation at a location; `None` where the location has no label or a number is too large.
fn place_text(
    alloc: Global,
    subject: &Subject,
    equation: &LocationEquation,
) -> Result<Option<Vec<u8>>, Memory> {
    let Some(label) = subject.names.location_name(equation.place) else {
        return Ok(None);
    };
    let row = row_text(
        alloc,
        &subject.names,
        subject.variables,
        &equation.form,
        Comparison::Equal,
    );
    let row = match row {
        Ok(row) => row,
        Err(ClauseFault::Unsaid) => return Ok(None),
        Err(ClauseFault::Memory) => return Err(Memory),
    };
    let mut text = Vec::from_slice(alloc, b"at ")?;
    text.extend_from_slice(label.as_bytes())?;
    text.extend_from_slice(b" -> ")?;
    text.extend_from_slice(&row)?;
    Ok(Some(text))
}

/// That control isn't at the location, or the equation holds.
fn place_form(alloc: Global, equation: &LocationEquation) -> Result<Form, Memory> {
    let place = Form::Not(Box::new(alloc, Form::At(equation.place))?);
    let holds = Form::Equal(equation.form.copy(alloc)?);
    Ok(Form::Or(vec![in alloc; place, holds]?))
}

/// An equation at a location as a candidate; `None` where it can't be said.
fn place_candidate(
    alloc: Global,
    subject: &Subject,
    equation: &LocationEquation,
) -> Result<Option<Candidate>, Memory> {
    let Some(text) = place_text(alloc, subject, equation)? else {
        return Ok(None);
    };
    let cost = text.len().saturating_add(EQUATION);
    Ok(Some(Candidate {
        origin: Origin::Found,
        cube: None,
        form: place_form(alloc, equation)?,
        phrase: Phrase {
            text,
            shape: Shape::Implication,
        },
        cost,
    }))
}

/// Appends the equations at locations, where one of them says more than that a variable is a number; that, clauses find by themselves.
fn push_place_candidates(
    alloc: Global,
    subject: &Subject,
    equations: &[LocationEquation],
    out: &mut Vec<Candidate>,
) -> Result<(), Memory> {
    if equations
        .iter()
        .all(|equation| equation.form.entries().len() < 2)
    {
        return Ok(());
    }
    for equation in equations {
        if let Some(candidate) = place_candidate(alloc, subject, equation)? {
            out.push(candidate)?;
        }
    }
    Ok(())
}

/// The locations that have labels: nothing can be said of others.
fn labelled(alloc: Global, subject: &Subject) -> Result<Vec<u32>, Memory> {
    let mut out = Vec::new(alloc);
    for location in 0..subject.system.locations {
        if subject.names.location_name(location).is_some() {
            out.push(location)?;
        }
    }
    Ok(out)
}

/// Appends the equations that hold at locations, as far as they are found.
fn push_place_equations(
    alloc: Global,
    subject: &Subject,
    out: &mut Vec<Candidate>,
) -> Result<(), Memory> {
    let places = labelled(alloc, subject)?;
    match location_equations(alloc, &subject.system, &subject.components, &places) {
        Ok(equations) => push_place_candidates(alloc, subject, &equations, out),
        Err(LinFault::TooLarge) => Ok(()),
        Err(LinFault::Memory) => Err(Memory),
    }
}

/// Whether equations are found.
pub(crate) fn has_equations(alloc: Global, subject: &Subject) -> Result<bool, Memory> {
    let mut found = Vec::new(alloc);
    push_equations(alloc, subject, &mut found)?;
    Ok(!found.is_empty())
}

/// Appends the linear equations that hold on every run, and those that hold at locations, as far as they are found.
pub(crate) fn push_equations(
    alloc: Global,
    subject: &Subject,
    out: &mut Vec<Candidate>,
) -> Result<(), Memory> {
    match proper_equations(alloc, &subject.system) {
        Ok(equations) => push_candidates(alloc, subject, &equations, out)?,
        Err(FindFault::Wide) => {}
        Err(FindFault::Memory) => return Err(Memory),
    }
    push_place_equations(alloc, subject, out)
}
