//! Equations, as they are read off a vector.

ghost use Rattle.std.specs.Prelude.{◌≡◌, ◌+◌, ◌<◌, ◌^◌, IfOk, map, nat_lt};
ghost use Rattle.null_laws.specs.Bases.{first_column};
ghost use Rattle.equation_laws.specs.Equations.{entries_below, entries_between, equation_of, with_variables};
ghost use Rattle.linear_invariants.specs.Plain.{plain_equation, plain_equations};

use matrix_rows::Row;
use st_memory::Memory;
use std::alloc::Global;

/// A linear equation: coefficients of variables and of locations, in rising order and none of them 0, and a constant. It holds in a
/// state where the coefficients times the variables, the coefficients of the locations where control is, and the constant sum to 0.
#[derive(Drop)]
pub struct Equation {
    pub numbers: Vec<(u32, i128)>,
    pub places: Vec<(u32, i128)>,
    pub constant: i128,
}

/// The entries in columns below a number.
fn entries_below(
    alloc: Global,
    columns: u32,
    entries: &[(u32, i128)],
) -> Result<Vec<(u32, i128)>, Memory>
    ensures { IfOk result (λ v. v.items ≡ entries_below columns entries.now) }
{
    let mut out = Vec::new(alloc);
    for e in entries {
        if e.0 >= columns {
            return Ok(out);
        }
        out.push(*e)?;
    }
    Ok(out)
}

/// The entries in the next columns, counted from there.
fn entries_between(
    alloc: Global,
    columns: u32,
    locations: u32,
    entries: &[(u32, i128)],
) -> Result<Vec<(u32, i128)>, Memory>
    requires { columns + locations < 2 ^ 32 }
    ensures { IfOk result (λ v. v.items ≡ entries_between columns locations entries.now) }
{
    let mut out = Vec::new(alloc);
    for e in entries {
        if e.0 >= columns + locations {
            return Ok(out);
        }
        if e.0 >= columns {
            out.push((e.0 - columns, e.1))?;
        }
    }
    Ok(out)
}

/// A vector as an equation.
fn equation_of(alloc: Global, variables: u32, locations: u32, row: &Row) -> Result<Equation, Memory>
    requires { variables + locations < 2 ^ 32 }
    ensures { IfOk result (λ e. plain_equation e ≡ equation_of variables locations row.now) }
{
    Ok(Equation {
        numbers: entries_below(alloc, variables, row.entries())?,
        places: entries_between(alloc, variables, locations, row.entries())?,
        constant: row.at(variables + locations),
    })
}

/// Whether the first entry belongs to a variable.
fn has_variable(variables: u32, row: &Row) -> bool
    ensures { result ≡ nat_lt (first_column row.now) variables }
{
    match row.entries().first() {
        Some(first) => first.0 < variables,
        None => 0 < variables,
    }
}

/// The vectors whose first entry belongs to a variable, as equations.
pub(crate) fn equations_of(
    alloc: Global,
    variables: u32,
    locations: u32,
    basis: &[Row],
) -> Result<Vec<Equation>, Memory>
    requires { variables + locations < 2 ^ 32 }
    ensures { IfOk result (λ v. plain_equations v.items ≡ map (equation_of variables locations) (with_variables variables basis.now)) }
{
    let mut out = Vec::new(alloc);
    for row in basis {
        if has_variable(variables, row) {
            out.push(equation_of(alloc, variables, locations, row)?)?;
        }
    }
    Ok(out)
}
