//! Groups of facts as formulas, and as steps that claim their invariance.

use crate::groups::Group;
use crate::subject::Subject;
use constant_facts::Constant;
use st_memory::Memory;
use std::alloc::Global;
use step_report::{push_number, push_text};

/// Appends a variable by its name.
fn push_variable(out: &mut Vec<u8>, subject: &Subject, variable: u32) -> Result<(), Memory> {
    if variable < subject.variables {
        push_text(out, subject.names.variable_name(variable).as_bytes())
    } else {
        Ok(())
    }
}

/// Appends that the variable has the value.
fn push_value(
    alloc: Global,
    out: &mut Vec<u8>,
    subject: &Subject,
    group: &Group,
) -> Result<(), Memory> {
    match &group.value {
        Constant::Truth(truth) => {
            if !*truth {
                push_text(out, b"~")?;
            }
            push_variable(out, subject, group.variable)
        }
        Constant::Number(number) => {
            push_variable(out, subject, group.variable)?;
            push_text(out, b" = ")?;
            push_text(out, format!(in alloc; "{number}")?.as_bytes())
        }
    }
}

/// Appends that control is at one of the locations, each of which has a label.
fn push_places(out: &mut Vec<u8>, subject: &Subject, places: &[u32]) -> Result<(), Memory> {
    for (number, place) in places.iter().enumerate() {
        if number > 0 {
            push_text(out, b" \\/ ")?;
        }
        push_text(out, b"at ")?;
        if let Some(label) = subject.names.location_name(*place) {
            push_text(out, label.as_bytes())?;
        }
    }
    Ok(())
}

/// A group as a formula.
fn clause(alloc: Global, subject: &Subject, group: &Group) -> Result<Vec<u8>, Memory> {
    let mut out = Vec::new(alloc);
    push_places(&mut out, subject, &group.places)?;
    push_text(&mut out, b" -> ")?;
    push_value(alloc, &mut out, subject, group)?;
    Ok(out)
}

/// Appends a line with the step that claims clauses as one invariance, unless there are none.
fn push_step(
    out: &mut Vec<u8>,
    name: &[u8],
    number: Option<u64>,
    clauses: &[Vec<u8>],
) -> Result<(), Memory> {
    if clauses.is_empty() {
        return Ok(());
    }
    push_text(out, b"invariant ")?;
    push_text(out, name)?;
    if let Some(number) = number {
        push_number(out, number)?;
    }
    for (place, clause) in clauses.iter().enumerate() {
        push_text(
            out,
            if place == 0 {
                b": ".as_slice()
            } else {
                b" /\\ ".as_slice()
            },
        )?;
        if clauses.len() > 1 {
            push_text(out, b"(")?;
        }
        push_text(out, clause)?;
        if clauses.len() > 1 {
            push_text(out, b")")?;
        }
    }
    push_text(out, b";\n")
}

/// The clauses of the groups of a variable, or of all.
fn clauses(
    alloc: Global,
    subject: &Subject,
    groups: &[Group],
    variable: Option<u32>,
) -> Result<Vec<Vec<u8>>, Memory> {
    let mut out = Vec::new(alloc);
    for group in groups {
        if variable.is_none() || variable == Some(group.variable) {
            out.push(clause(alloc, subject, group)?)?;
        }
    }
    Ok(out)
}

/// A step for each variable of which there is a fact, numbered from 1.
pub(crate) fn steps_apart(
    alloc: Global,
    subject: &Subject,
    groups: &[Group],
) -> Result<Vec<u8>, Memory> {
    let mut out = Vec::new(alloc);
    let mut number: u64 = 1;
    for variable in 0..subject.variables {
        let clauses = clauses(alloc, subject, groups, Some(variable))?;
        if !clauses.is_empty() {
            push_step(&mut out, b"fact", Some(number), &clauses)?;
            number = number.saturating_add(1);
        }
    }
    Ok(out)
}

/// All facts as one step.
pub(crate) fn step_together(
    alloc: Global,
    subject: &Subject,
    groups: &[Group],
) -> Result<Vec<u8>, Memory> {
    let mut out = Vec::new(alloc);
    let clauses = clauses(alloc, subject, groups, None)?;
    push_step(&mut out, b"facts", None, &clauses)?;
    Ok(out)
}
