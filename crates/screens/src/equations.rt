//! The screen of what was found for a program.

ghost use Rattle.std.specs.Prelude.{IfOk};
ghost use Rattle.std.specs.String.{string_bytes};
ghost use Rattle.screens.specs.Tame.{IsScreen};

use crate::screen::{Ink, Screen, Style};
use proof_reports::{Equation, EquationReport};
use st_memory::Memory;
use std::alloc::Global;

impl Screen {
    fn equation(&mut self, equation: &Equation) -> Result<(), Memory> {
        let alloc = self.alloc;
        match &equation.text {
            Some(text) => {
                self.text(text)?;
                self.end()
            }
            None => {
                let line = format!(in alloc;
                    "% {} is left out: one of its locations has no label, its formula is too long, or it isn't proved alone",
                    equation.name
                )?;
                self.text(&line)?;
                self.end()
            }
        }
    }

    /// That nothing was found.
    fn nothing(&mut self, report: &EquationReport) -> Result<(), Memory> {
        self.ink(Ink::Bold, "nothing found")?;
        let line = format!(in self.alloc;
            ": no sum of variables and places stays the same on every run of {}, and no place tells a value",
            report.program
        )?;
        self.text(&line)?;
        self.end()
    }

    fn count(&mut self, report: &EquationReport) -> Result<(), Memory> {
        let alloc = self.alloc;
        if report.equations.is_empty() {
            return self.nothing(report);
        }
        let counts = counts(alloc, report)?;
        self.ink(Ink::Good, "found")?;
        let line = format!(in alloc; ": {counts} that every run of {} keeps", report.program)?;
        self.text(&line)?;
        self.end()
    }
}

/// So many of something.
fn so_many(alloc: Global, count: usize, what: &str) -> Result<String, Memory> {
    let ending = if count == 1 { "" } else { "s" };
    Ok(format!(in alloc; "{count} {what}{ending}")?)
}

/// How many steps say what value a variable has at places, rather than a sum; their names tell.
fn facts_in(report: &EquationReport) -> usize {
    report
        .equations
        .iter()
        .filter(|step| step.name.starts_with("fact"))
        .count()
}

/// How many equations were found, and how many facts beside them.
fn counts(alloc: Global, report: &EquationReport) -> Result<String, Memory> {
    let facts = facts_in(report);
    let equations = report.equations.len().saturating_sub(facts);
    let mut counts = String::new(alloc);
    if equations > 0 {
        counts.push_str(so_many(alloc, equations, "linear equation")?.as_str())?;
    }
    if equations > 0 && facts > 0 {
        counts.push_str(" and ")?;
    }
    if facts > 0 {
        counts.push_str(so_many(alloc, facts, "fact")?.as_str())?;
    }
    Ok(counts)
}

/// The screen of what was found: how many equations, and each as a step of a proof text.
pub fn equations_screen(
    alloc: Global,
    report: &EquationReport,
    style: Style,
) -> Result<String, Memory>
    ensures { IfOk result (λ s. ∥ IsScreen (string_bytes s) ∥₁) }
{
    let mut screen = Screen::new(alloc, style);
    screen.count(report)?;
    for equation in &report.equations {
        screen.equation(equation)?;
    }
    Ok(screen.finish())
}
