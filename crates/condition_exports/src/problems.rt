//! Conditions as problems in SMT-LIB 2, the common language of solvers for satisfiability modulo theories (Barrett, Fontaine and
//! Tinelli, *The SMT-LIB Standard: Version 2.6*, 2017), in its logic of linear arithmetic over whole numbers without quantifiers.
//!
//! What is given is asserted, and that what is shown doesn't hold. So a solver answers `unsat` where a condition is valid, and `sat`
//! where a state refutes it.

ghost use Rattle.posed_conditions.specs.Translated.{IsTranslated};

use crate::naming::condition_name;
use crate::selection::{ExportFault, selected};
use crate::smt_formulas::{push_cases, push_formula};
use crate::symbols::Symbols;
use control_states::{Alternative, Component, Components};
use posed_conditions::{PosedProof, TranslatedProgram};
use st_form::{Condition, Consequent};
use st_memory::Memory;
use std::alloc::Global;
use std::fmt::Write;

/// Appends the declarations of variables, and of where control is in each component.
fn push_declarations(
    out: &mut String,
    symbols: &Symbols,
    source: &TranslatedProgram,
) -> Result<(), Memory> {
    for (name, variable) in symbols.variables.iter().zip(&source.program.variables) {
        let sort = if variable.truth { "Bool" } else { "Int" };
        writeln!(out, "(declare-const |{name}| {sort})")?;
    }
    for number in 0..source.components.parts().len() {
        writeln!(
            out,
            "(declare-const |control {}| Int)",
            number.saturating_add(1)
        )?;
    }
    Ok(())
}

/// The place of a cooperation among what the component around it can be at.
fn place_inside(components: &Components, parent: u32, occurrence: u32) -> usize {
    let alternatives = components.alternatives(parent);
    for (place, alternative) in alternatives.iter().enumerate() {
        if *alternative == Alternative::Inside(occurrence) {
            return place;
        }
    }
    alternatives.len()
}

/// Appends what control of a component can be: a process is at one of its places, and a child is where the component around it is
/// inside of the cooperation, and else isn't active.
fn push_control(
    out: &mut String,
    components: &Components,
    number: usize,
    component: &Component,
) -> Result<(), Memory> {
    let own = number.saturating_add(1);
    let count = component.alternatives().len();
    match component.around() {
        None => writeln!(
            out,
            "(assert (and (<= 0 |control {own}|) (< |control {own}| {count})))"
        )?,
        Some((parent, occurrence)) => {
            let place = place_inside(components, parent, occurrence);
            let parent = u64::from(parent) + 1;
            writeln!(out, "(assert (ite (= |control {parent}| {place})")?;
            writeln!(
                out,
                "  (and (<= 0 |control {own}|) (< |control {own}| {count}))"
            )?;
            writeln!(out, "  (= |control {own}| (- 1))))")?;
        }
    }
    Ok(())
}

fn push_given(out: &mut String, symbols: &Symbols, condition: &Condition) -> Result<(), Memory> {
    for form in &condition.given {
        out.push_str("(assert ")?;
        push_formula(out, symbols, form.get())?;
        out.push_str(")\n")?;
    }
    Ok(())
}

/// Appends that what is shown doesn't hold.
fn push_denied(out: &mut String, symbols: &Symbols, condition: &Condition) -> Result<(), Memory> {
    out.push_str("(assert (not ")?;
    match &condition.shown {
        Consequent::One(form) => push_formula(out, symbols, form.get())?,
        Consequent::Any(cases) => push_cases(out, symbols, cases)?,
    }
    out.push_str("))\n")?;
    Ok(())
}

/// Appends one problem, which a solver answers behind the condition's number and name.
fn push_problem(
    out: &mut String,
    symbols: &Symbols,
    name: &str,
    place: usize,
    condition: &Condition,
) -> Result<(), Memory> {
    writeln!(
        out,
        "\n(push 1)\n(echo \"{} {name}\")",
        place.saturating_add(1)
    )?;
    push_given(out, symbols, condition)?;
    push_denied(out, symbols, condition)?;
    out.push_str("(check-sat)\n(pop 1)\n")?;
    Ok(())
}

/// The conditions of a proof as problems in SMT-LIB 2, one behind the other: all, or those that are wanted, as [`selected`] tells
/// them. Before each answer its number and name are printed.
///
/// # Errors
///
/// `NoSuchCondition` where none is meant, or want of memory.
pub fn smt_problems(
    alloc: Global,
    posed: &PosedProof,
    wanted: Option<&str>,
) -> Result<String, ExportFault>
    requires { IsTranslated posed.now.source }
{
    let symbols = Symbols::new(alloc, &posed.source)?;
    let components = &posed.source.components;
    let steps = posed.proof.script.steps.as_slice();
    let places = selected(alloc, posed, wanted)?;
    let mut out = String::from_str(alloc, "(set-logic QF_LIA)\n")?;
    push_declarations(&mut out, &symbols, &posed.source)?;
    for (number, component) in components.parts().iter().enumerate() {
        push_control(&mut out, components, number, component)?;
    }
    for place in places {
        if let Some(condition) = posed.proof.conditions.get(place) {
            let name = condition_name(alloc, &posed.source.names, steps, &condition.name)?;
            push_problem(&mut out, &symbols, &name, place, condition)?;
        }
    }
    Ok(out)
}
