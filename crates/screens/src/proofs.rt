//! The screen of a proof: what is proved, or what fails.

ghost use Rattle.std.specs.Prelude.{IfOk};
ghost use Rattle.std.specs.String.{string_bytes};
ghost use Rattle.screens.specs.Tame.{IsScreen};

use crate::screen::{Ink, Screen, Style, columns};
use proof_reports::{Report, StepReport};
use st_memory::Memory;
use std::alloc::Global;

/// So many rounds, as a sum says how many.
pub(crate) fn counted_rounds(alloc: Global, count: &str) -> Result<String, Memory> {
    let ending = if count == "1" { "" } else { "s" };
    Ok(format!(in alloc; "{count} round{ending}")?)
}

/// What a step rests on: its bound, its rule where it is written out, and what it cites.
fn rests_on(alloc: Global, step: &StepReport) -> Result<String, Memory> {
    let mut out = String::new(alloc);
    if let Some(bound) = &step.bound {
        let rounds = counted_rounds(alloc, bound)?;
        let within = format!(in alloc; "within {rounds}, by {}", step.rule)?;
        out.push_str(&within)?;
    }
    for (number, name) in step.using.iter().enumerate() {
        if number == 0 {
            out.push_str(if out.is_empty() { "using " } else { ", using " })?;
        } else {
            out.push_str(", ")?;
        }
        out.push_str(name)?;
    }
    Ok(out)
}

fn counted(alloc: Global, count: u64, thing: &str) -> Result<String, Memory> {
    let ending = if count == 1 { "" } else { "s" };
    Ok(format!(in alloc; "{count} {thing}{ending}")?)
}

/// How many columns kinds and names take.
fn name_columns(steps: &[StepReport]) -> (usize, usize) {
    let mut kinds: usize = 0;
    let mut names: usize = 0;
    for step in steps {
        kinds = kinds.max(columns(&step.kind));
        names = names.max(columns(&step.name));
    }
    (kinds, names)
}

/// Whether a step fails that says nothing of how it is shown: an invariance by itself, which cites nothing.
fn is_left_open(step: &StepReport) -> bool {
    0 < step.failing && step.rule.as_str() == "itself" && step.using.is_empty()
}

impl Screen {
    fn verdict(&mut self, step: &StepReport) -> Result<(), Memory> {
        let alloc = self.alloc;
        if step.failing == 0 {
            return self.ink(Ink::Good, "proved");
        }
        let ending = if step.failing == 1 { "fails" } else { "fail" };
        let line = format!(in alloc; "{} {ending}", step.failing)?;
        self.ink(Ink::Bad, &line)
    }

    fn step(&mut self, step: &StepReport, kinds: usize, names: usize) -> Result<(), Memory> {
        let alloc = self.alloc;
        self.blanks(2)?;
        self.cell(&step.kind, kinds)?;
        self.cell(&step.name, names)?;
        let conditions = counted(alloc, step.conditions, "condition")?;
        self.cell(&conditions, 15)?;
        let rest = rests_on(alloc, step)?;
        if rest.is_empty() {
            self.verdict(step)?;
        } else {
            self.verdict(step)?;
            self.text("  ")?;
            self.text(&rest)?;
        }
        self.end()
    }

    /// The steps, each with its verdict.
    fn steps(&mut self, steps: &[StepReport]) -> Result<(), Memory> {
        let (kinds, names) = name_columns(steps);
        for step in steps {
            self.step(step, kinds, names)?;
        }
        Ok(())
    }

    fn proved(&mut self, report: &Report) -> Result<(), Memory> {
        let alloc = self.alloc;
        let goals = counted(alloc, report.steps.len() as u64, "goal")?;
        let conditions = counted(alloc, report.conditions, "condition")?;
        self.ink(Ink::Good, "proved")?;
        let line = format!(in alloc;
            ": {goals} of every run of {}, by {conditions}",
            report.program
        )?;
        self.ink(Ink::Bold, &line)?;
        self.end()?;
        self.steps(&report.steps)
    }

    fn not_proved(&mut self, report: &Report) -> Result<(), Memory> {
        let alloc = self.alloc;
        let conditions = counted(alloc, report.conditions, "condition")?;
        let ending = if report.failing == 1 { "fails" } else { "fail" };
        self.ink(Ink::Bad, "not proved")?;
        let line = format!(in alloc; ": {} of {conditions} {ending}", report.failing)?;
        self.ink(Ink::Bold, &line)?;
        self.end()?;
        self.steps(&report.steps)
    }

    /// How many failures aren't shown, and what to ask of those that are.
    fn advice(&mut self, report: &Report) -> Result<(), Memory> {
        let alloc = self.alloc;
        let shown = report.failures.len() as u64;
        if shown < report.failing {
            let line = format!(in alloc;
                "  {shown} of them shown: `--limit {}` shows all",
                report.failing
            )?;
            self.text(&line)?;
            self.end()?;
        }
        self.text(
            "  Is each state one that a run can reach? If it is, the program or the claim is wrong. If not, prove",
        )?;
        self.end()?;
        self.text(
            "  an invariant that excludes it, and cite it by `using`: `milkhour explain open`",
        )?;
        self.end()?;
        if report.steps.iter().any(is_left_open) {
            self.text(
                "  Or try `milkhour find`, which looks for such invariants, or for a run on which the claim fails",
            )?;
            self.end()?;
        }
        Ok(())
    }

    fn failures(&mut self, report: &Report) -> Result<(), Memory> {
        let mut number: usize = 0;
        for failure in &report.failures {
            number = number.saturating_add(1);
            self.failure(failure, number, (report.conditions, report.failing))?;
        }
        Ok(())
    }
}

/// The screen of a proof: with status 0 its goals and their rules; else each failure that the report has, and then the steps with
/// how many of their conditions fail.
pub fn proof_screen(alloc: Global, report: &Report, style: Style) -> Result<String, Memory>
    ensures { IfOk result (λ s. ∥ IsScreen (string_bytes s) ∥₁) }
{
    let mut screen = Screen::new(alloc, style);
    if report.status == 0 {
        screen.proved(report)?;
    } else {
        screen.failures(report)?;
        screen.not_proved(report)?;
        screen.advice(report)?;
    }
    Ok(screen.finish())
}
