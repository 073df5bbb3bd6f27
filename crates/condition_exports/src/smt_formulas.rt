//! Formulas as terms of sort `Bool`. Connectives of SMT-LIB join at least two terms, so one stands by itself and none is a constant.

use crate::linear_terms::push_sum;
use crate::symbols::Symbols;
use st_form::{Form, Lin, SharedForm};
use st_memory::Memory;
use std::fmt::Write;

/// Appends that a form is compared with 0.
fn push_compared(out: &mut String, symbols: &Symbols, sign: &str, sum: &Lin) -> Result<(), Memory> {
    write!(out, "({sign} ")?;
    push_sum(out, symbols, sum)?;
    out.push_str(" 0)")?;
    Ok(())
}

/// Appends that control is at a location.
fn push_place(out: &mut String, symbols: &Symbols, location: u32) -> Result<(), Memory> {
    match symbols.standings.get(location as usize) {
        Some(standing) => {
            let component = standing.component.saturating_add(1);
            write!(out, "(= |control {component}| {})", standing.place)?;
        }
        None => out.push_str("false")?,
    }
    Ok(())
}

/// Appends a formula.
#[cycle(smt_formula)]
pub(crate) fn push_formula(out: &mut String, symbols: &Symbols, form: &Form) -> Result<(), Memory> {
    match form {
        Form::True => out.push_str("true")?,
        Form::False => out.push_str("false")?,
        Form::Row(sum) => push_compared(out, symbols, ">=", sum)?,
        Form::Equal(sum) => push_compared(out, symbols, "=", sum)?,
        Form::BoolVar(variable) => write!(out, "|{}|", symbols.variable(*variable))?,
        Form::At(location) => push_place(out, symbols, *location)?,
        Form::Not(inner) => {
            out.push_str("(not ")?;
            push_formula(out, symbols, inner)?;
            out.push_str(")")?;
        }
        Form::And(parts) => push_joined(out, symbols, "and", "true", parts)?,
        Form::Or(parts) => push_joined(out, symbols, "or", "false", parts)?,
    }
    Ok(())
}

/// Appends parts joined by a connective.
#[cycle(smt_formula)]
fn push_joined(
    out: &mut String,
    symbols: &Symbols,
    connective: &str,
    none: &str,
    parts: &[Form],
) -> Result<(), Memory> {
    begin_joined(out, connective, none, parts.len())?;
    for (place, part) in parts.iter().enumerate() {
        if 0 < place {
            out.push_str(" ")?;
        }
        push_formula(out, symbols, part)?;
    }
    end_joined(out, parts.len())
}

/// Appends what stands before so many parts.
fn begin_joined(
    out: &mut String,
    connective: &str,
    none: &str,
    count: usize,
) -> Result<(), Memory> {
    match count {
        0 => out.push_str(none)?,
        1 => {}
        _ => write!(out, "({connective} ")?,
    }
    Ok(())
}

/// Appends what stands behind so many parts.
fn end_joined(out: &mut String, count: usize) -> Result<(), Memory> {
    if 1 < count {
        out.push_str(")")?;
    }
    Ok(())
}

/// Appends a case: that each of its formulas holds.
fn push_case(out: &mut String, symbols: &Symbols, case: &[SharedForm]) -> Result<(), Memory> {
    begin_joined(out, "and", "true", case.len())?;
    for (place, form) in case.iter().enumerate() {
        if 0 < place {
            out.push_str(" ")?;
        }
        push_formula(out, symbols, form.get())?;
    }
    end_joined(out, case.len())
}

/// Appends that one of the cases holds.
pub(crate) fn push_cases(
    out: &mut String,
    symbols: &Symbols,
    cases: &[Vec<SharedForm>],
) -> Result<(), Memory> {
    begin_joined(out, "or", "false", cases.len())?;
    for (place, case) in cases.iter().enumerate() {
        if 0 < place {
            out.push_str(" ")?;
        }
        push_case(out, symbols, case)?;
    }
    end_joined(out, cases.len())
}
