//! Linear forms as terms of SMT-LIB's theory `Ints`: a minus stands as a function, and a sum has at least two parts.

use crate::symbols::Symbols;
use st_form::Lin;
use st_memory::Memory;
use std::fmt::Write;

fn push_number(out: &mut String, number: &i128) -> Result<(), Memory> {
    if *number < 0 {
        write!(out, "(- {})", number.unsigned_abs())?;
    } else {
        write!(out, "{number}")?;
    }
    Ok(())
}

fn push_term(out: &mut String, symbols: &Symbols, entry: &(u32, i128)) -> Result<(), Memory> {
    let name = symbols.variable(entry.0);
    if entry.1 == 1 {
        write!(out, "|{name}|")?;
        return Ok(());
    }
    out.push_str("(* ")?;
    push_number(out, &entry.1)?;
    write!(out, " |{name}|)")?;
    Ok(())
}

/// Appends a form as a term.
pub(crate) fn push_sum(out: &mut String, symbols: &Symbols, sum: &Lin) -> Result<(), Memory> {
    match sum.entries() {
        [] => push_number(out, &sum.constant()),
        [only] => {
            if sum.constant() == 0 {
                push_term(out, symbols, only)
            } else {
                push_parts(out, symbols, sum)
            }
        }
        _ => push_parts(out, symbols, sum),
    }
}

/// Appends the sum of all entries and the constant, which is left out where it is 0.
fn push_parts(out: &mut String, symbols: &Symbols, sum: &Lin) -> Result<(), Memory> {
    out.push_str("(+")?;
    for entry in sum.entries() {
        out.push_str(" ")?;
        push_term(out, symbols, entry)?;
    }
    let constant = sum.constant();
    if constant != 0 {
        out.push_str(" ")?;
        push_number(out, &constant)?;
    }
    out.push_str(")")?;
    Ok(())
}
