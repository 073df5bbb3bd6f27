//! The screen of a run: a line for each position, with what the move before it changed, and then what the goals come to.

ghost use Rattle.std.specs.Prelude.{IfOk};
ghost use Rattle.std.specs.String.{string_bytes};
ghost use Rattle.screens.specs.Tame.{IsScreen};

use crate::screen::{Ink, Screen, Style, columns};
use proof_reports::{Cell, GoalReport, Position, RunReport, Spot};
use st_memory::Memory;
use std::alloc::Global;

/// Makes columns as wide as the cells of a state.
pub(crate) fn widen(widths: &mut [usize], cells: &[Cell]) {
    for (width, cell) in widths.iter_mut().zip(cells.iter()) {
        *width = (*width).max(columns(&cell.name)).max(columns(&cell.value));
    }
}

/// How many columns the moves take.
fn move_columns(positions: &[Position]) -> usize {
    let mut most = columns("move");
    for position in positions {
        if let Some(taken) = &position.taken {
            most = most.max(columns(taken));
        }
    }
    most
}

/// How wide each column of the table is.
fn widths(alloc: Global, positions: &[Position]) -> Result<Vec<usize>, Memory> {
    let mut out = Vec::new(alloc);
    if let Some(first) = positions.first() {
        out.resize(first.state.len(), 0)?;
    }
    for position in positions {
        widen(&mut out, &position.state);
    }
    Ok(out)
}

fn verdict_words(alloc: Global, goal: &GoalReport) -> Result<String, Memory> {
    match (goal.verdict.as_str(), goal.at, &goal.bound) {
        ("fails", Some(at), _) => Ok(format!(in alloc; "fails at {at}")?),
        ("unclear", Some(at), _) => {
            Ok(format!(in alloc; "unclear at {at}: a number is too large there")?)
        }
        ("untried", _, Some(bound)) => {
            Ok(format!(in alloc; "holds, untried: the run has fewer rounds than {bound}")?)
        }
        ("untried", _, None) => Ok(String::from_str(alloc, "holds, untried")?),
        (verdict, _, _) => Ok(String::from_str(alloc, verdict)?),
    }
}

impl Screen {
    fn run_head(&mut self, cells: &[Cell], widths: &[usize], moves: usize) -> Result<(), Memory> {
        self.cell("", 4)?;
        for (cell, width) in cells.iter().zip(widths.iter()) {
            self.cell(&cell.name, *width)?;
        }
        self.cell("rounds", 6)?;
        self.cell("move", moves)?;
        self.text("line")?;
        self.end()
    }

    /// A value; a dot where the move before didn't change it.
    pub(crate) fn run_cell(
        &mut self,
        cell: &Cell,
        width: usize,
        first: bool,
    ) -> Result<(), Memory> {
        let text: &str = if cell.changed || first {
            &cell.value
        } else {
            "."
        };
        let ink = if cell.changed && !first {
            Ink::Bold
        } else {
            Ink::Plain
        };
        self.ink(ink, text)?;
        self.blanks(width.saturating_sub(columns(text)).saturating_add(2))
    }

    /// A move, and behind it its statement's first line.
    pub(crate) fn move_line(
        &mut self,
        name: &str,
        spot: &Option<Spot>,
        width: usize,
    ) -> Result<(), Memory> {
        let alloc = self.alloc;
        match spot {
            Some(spot) => {
                self.cell(name, width)?;
                let line = format!(in alloc; "{}: ", spot.line)?;
                self.text(&line)?;
                self.text(spot.text.lines().next().unwrap_or(""))
            }
            None => self.text(name),
        }
    }

    fn taken(&mut self, position: &Position, moves: usize) -> Result<(), Memory> {
        match &position.taken {
            Some(taken) => self.move_line(taken, &position.spot, moves),
            None => self.text("the end"),
        }
    }

    fn position(
        &mut self,
        position: &Position,
        widths: &[usize],
        moves: usize,
    ) -> Result<(), Memory> {
        let alloc = self.alloc;
        let number = format!(in alloc; "{}", position.position)?;
        self.blanks(4usize.saturating_sub(number.len()))?;
        self.ink(Ink::Rule, &number)?;
        self.blanks(2)?;
        for (cell, width) in position.state.iter().zip(widths.iter()) {
            self.run_cell(cell, *width, position.position == 0)?;
        }
        let rounds = format!(in alloc; "{}", position.rounds)?;
        self.cell(&rounds, 6)?;
        self.taken(position, moves)?;
        self.end()
    }

    fn run_table(&mut self, report: &RunReport) -> Result<(), Memory> {
        let widths = widths(self.alloc, &report.positions)?;
        let moves = move_columns(&report.positions);
        if let Some(first) = report.positions.first() {
            self.run_head(&first.state, &widths, moves)?;
        }
        for position in &report.positions {
            self.position(position, &widths, moves)?;
        }
        Ok(())
    }

    fn goal(&mut self, goal: &GoalReport) -> Result<(), Memory> {
        let alloc = self.alloc;
        let words = verdict_words(alloc, goal)?;
        let name = format!(in alloc; "{} {}: ", goal.kind, goal.name)?;
        self.text(&name)?;
        let ink = match goal.verdict.as_str() {
            "holds" => Ink::Good,
            "fails" => Ink::Bad,
            _ => Ink::Bold,
        };
        self.ink(ink, &words)?;
        self.end()
    }

    /// The state in which a goal fails.
    fn failing_state(&mut self, goal: &GoalReport, report: &RunReport) -> Result<(), Memory> {
        if goal.verdict.as_str() != "fails" {
            return Ok(());
        }
        for position in &report.positions {
            if Some(position.position) == goal.at {
                self.blanks(2)?;
                for cell in &position.state {
                    let alloc = self.alloc;
                    let value = format!(in alloc; "  {} = {}", cell.name, cell.value)?;
                    self.text(&value)?;
                }
                return self.end();
            }
        }
        Ok(())
    }
}

/// The screen of a run: a table of its positions, and what each goal comes to on it.
pub fn run_screen(alloc: Global, report: &RunReport, style: Style) -> Result<String, Memory>
    ensures { IfOk result (λ s. ∥ IsScreen (string_bytes s) ∥₁) }
{
    let mut screen = Screen::new(alloc, style);
    screen.run_table(report)?;
    screen.end()?;
    for goal in &report.goals {
        screen.goal(goal)?;
        screen.failing_state(goal, report)?;
    }
    Ok(screen.finish())
}
