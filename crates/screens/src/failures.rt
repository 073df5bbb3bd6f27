//! A condition that fails: a title, the places, the states, and what is false.

use crate::proofs::counted_rounds;
use crate::screen::{Ink, Screen, columns};
use proof_reports::{Case, Failure, Item, Turn};
use st_memory::Memory;

/// Appends names with a sign between them.
fn push_names(out: &mut String, names: &[String], sign: &str) -> Result<(), Memory> {
    for (number, name) in names.iter().enumerate() {
        if 0 < number {
            out.push_str(sign)?;
        }
        out.push_str(name)?;
    }
    Ok(())
}

impl Screen {
    fn heading(&mut self, failure: &Failure, number: usize, failing: u64) -> Result<(), Memory> {
        let alloc = self.alloc;
        let count = format!(in alloc; "{number} of {failing}")?;
        let title = columns(&failure.reason).saturating_add(columns(&failure.title));
        let used = title.saturating_add(columns(&count)).saturating_add(2);
        self.ink(Ink::Bad, &failure.reason)?;
        self.ink(Ink::Bold, ": ")?;
        self.ink(Ink::Bold, &failure.title)?;
        self.blanks(self.style.width.saturating_sub(used).max(2))?;
        self.text(&count)?;
        self.end()
    }

    /// What of the claim is false.
    fn broken(&mut self, failure: &Failure) -> Result<(), Memory> {
        let alloc = self.alloc;
        for text in &failure.broken {
            let line = format!(in alloc; "wanted, and false: {text}")?;
            self.remark(&line)?;
        }
        Ok(())
    }

    fn case(&mut self, case: &Case) -> Result<(), Memory> {
        let mut line = String::from_str(self.alloc, "       ")?;
        line.push_str(&case.meaning)?;
        line.push_str(": ")?;
        push_names(&mut line, &case.missing, ", ")?;
        self.text(&line)?;
        self.end()
    }

    /// What a step has to lead to, and why it leads to none of it.
    fn cases(&mut self, cases: &[Case]) -> Result<(), Memory> {
        if cases.is_empty() {
            return Ok(());
        }
        self.remark("the step has to lead to one of these, and leads to none:")?;
        for case in cases {
            self.case(case)?;
        }
        Ok(())
    }

    fn item(&mut self, item: &Item, bound: Option<&String>) -> Result<(), Memory> {
        let alloc = self.alloc;
        let mut line = format!(in alloc; "item {} holds here", item.number)?;
        if let Some(rounds) = &item.rounds {
            line.push_str(" and asks for ")?;
            line.push_str(&counted_rounds(alloc, rounds)?)?;
            if let Some(bound) = bound {
                line.push_str("; the bound gives ")?;
                line.push_str(bound)?;
            }
        }
        self.remark(&line)
    }

    /// Where a wait begins: which items hold there, and what they ask for.
    fn beginnings(&mut self, turn: &Turn) -> Result<(), Memory> {
        for item in &turn.items {
            if item.holds {
                self.item(item, turn.bound.as_ref())?;
            }
        }
        Ok(())
    }

    /// Whose turn it is.
    fn turn(&mut self, failure: &Failure, turn: &Turn) -> Result<(), Memory> {
        match failure.premise.as_str() {
            "cover" => self.beginnings(turn)?,
            "help" => {}
            _ => return Ok(()),
        }
        if turn.deadlock {
            return self.remark("deadlock: nothing is enabled in this state");
        }
        let mut line = String::from_str(self.alloc, "enabled in this state: ")?;
        push_names(&mut line, &turn.enabled, ", ")?;
        self.remark(&line)
    }

    fn excluded(&mut self, failure: &Failure) -> Result<(), Memory> {
        let alloc = self.alloc;
        for name in &failure.excluded_by {
            let line = format!(in alloc;
                "excluded by `{name}`: add `using {name}` to `{}`",
                failure.step
            )?;
            self.remark(&line)?;
        }
        Ok(())
    }

    /// What is to be shown, where no state tells what is false.
    fn wanted(&mut self, failure: &Failure) -> Result<(), Memory> {
        if !failure.state.is_empty() {
            return Ok(());
        }
        self.remark("no state is known in which it fails; to be shown:")?;
        for line in failure.shown.lines() {
            self.text("       ")?;
            self.text(line)?;
            self.end()?;
        }
        Ok(())
    }

    fn places(&mut self, failure: &Failure) -> Result<(), Memory> {
        for (place, spot) in failure.spots.iter().enumerate() {
            self.spot(spot, if place == 0 { "-->" } else { ":::" })?;
        }
        Ok(())
    }

    /// A condition that fails, the n-th of all that do.
    pub(crate) fn failure(
        &mut self,
        failure: &Failure,
        number: usize,
        report: (u64, u64),
    ) -> Result<(), Memory> {
        let (conditions, failing) = report;
        let alloc = self.alloc;
        self.heading(failure, number, failing)?;
        self.places(failure)?;
        self.states(&failure.state)?;
        self.remark(&failure.words)?;
        self.broken(failure)?;
        self.cases(&failure.alternatives)?;
        if let Some(turn) = &failure.turn {
            self.turn(failure, turn)?;
        }
        self.excluded(failure)?;
        self.wanted(failure)?;
        let line = format!(in alloc;
            "condition {} of {conditions}, {}",
            failure.number, failure.name
        )?;
        self.remark(&line)?;
        self.end()
    }
}
