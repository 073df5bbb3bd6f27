//! The equations that were found for a program, as plain data.
#![tactic(auto)]

use proof_reports::{Equation, EquationReport};
use st_memory::Memory;
use std::alloc::Global;

/// The version of the form of these reports.
const SCHEMA: &str = "milkhour.invariants/1";

/// What a line says: the step of an equation, or the comment that stands for one that is left out.
fn equation(alloc: Global, line: &str) -> Result<Option<Equation>, Memory> {
    if let Some(name) = line.strip_prefix("% left out: ") {
        let name = String::from_str(alloc, name)?;
        return Ok(Some(Equation { name, text: None }));
    }
    let Some((name, _)) = line
        .strip_prefix("invariant ")
        .and_then(|rest| rest.split_once(':'))
    else {
        return Ok(None);
    };
    let text = String::from_str(alloc, line)?;
    Ok(Some(Equation {
        name: String::from_str(alloc, name)?,
        text: Some(text),
    }))
}

/// What is told of the text that `invariants` gives for a program, whose file has this name. Its status is 0 and its headline
/// empty: who has the answer of `step` puts in what that says.
pub fn report_equations(
    alloc: Global,
    program_name: &str,
    text: &str,
) -> Result<EquationReport, Memory> {
    let mut equations = Vec::new(alloc);
    for line in text.lines() {
        if let Some(equation) = equation(alloc, line)? {
            equations.push(equation)?;
        }
    }
    Ok(EquationReport {
        schema: String::from_str(alloc, SCHEMA)?,
        status: 0,
        headline: String::new(alloc),
        program: String::from_str(alloc, program_name)?,
        equations,
    })
}
