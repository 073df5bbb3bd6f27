//! The screen of a state and of the moves that may be taken from it: a line for the state, and one for each move by its number, with
//! what the move changes.

ghost use Rattle.std.specs.Prelude.{IfOk};
ghost use Rattle.std.specs.String.{string_bytes};
ghost use Rattle.screens.specs.Tame.{IsScreen};

use crate::runs::widen;
use crate::screen::{Ink, Screen, Style, columns};
use proof_reports::{Cell, MoveReport, MovesReport};
use st_memory::Memory;
use std::alloc::Global;

/// How wide each column of cells is.
fn widths(alloc: Global, report: &MovesReport) -> Result<Vec<usize>, Memory> {
    let mut out = Vec::new(alloc);
    out.resize(report.state.len(), 0)?;
    widen(&mut out, &report.state);
    for listed in &report.moves {
        widen(&mut out, &listed.state);
    }
    Ok(out)
}

/// How many columns the names of the moves take.
fn name_columns(moves: &[MoveReport]) -> usize {
    let mut most = columns("move");
    for listed in moves {
        most = most.max(columns(&listed.name));
    }
    most
}

impl Screen {
    fn moves_head(&mut self, cells: &[Cell], widths: &[usize], names: usize) -> Result<(), Memory> {
        self.cell("", 4)?;
        for (cell, width) in cells.iter().zip(widths.iter()) {
            self.cell(&cell.name, *width)?;
        }
        self.cell("move", names)?;
        self.text("line")?;
        self.end()
    }

    fn state_cells(&mut self, cells: &[Cell], widths: &[usize], whole: bool) -> Result<(), Memory> {
        self.blanks(2)?;
        for (cell, width) in cells.iter().zip(widths.iter()) {
            self.run_cell(cell, *width, whole)?;
        }
        Ok(())
    }

    /// The state from which moves are taken.
    fn standing(&mut self, report: &MovesReport, widths: &[usize]) -> Result<(), Memory> {
        let alloc = self.alloc;
        self.blanks(4)?;
        self.state_cells(&report.state, widths, true)?;
        let position = format!(in alloc; "position {}", report.position)?;
        self.ink(Ink::Rule, &position)?;
        if report.moves.is_empty() {
            self.text(": no move but idling")?;
        }
        self.end()
    }

    /// A move by its number.
    fn listed(
        &mut self,
        number: usize,
        listed: &MoveReport,
        widths: &[usize],
        names: usize,
    ) -> Result<(), Memory> {
        let alloc = self.alloc;
        let number = format!(in alloc; "{number}")?;
        self.blanks(4usize.saturating_sub(number.len()))?;
        self.ink(Ink::Rule, &number)?;
        self.state_cells(&listed.state, widths, false)?;
        self.move_line(&listed.name, &listed.spot, names)?;
        self.end()
    }
}

/// The screen of a state and its moves.
pub fn moves_screen(alloc: Global, report: &MovesReport, style: Style) -> Result<String, Memory>
    ensures { IfOk result (λ s. ∥ IsScreen (string_bytes s) ∥₁) }
{
    let mut screen = Screen::new(alloc, style);
    let widths = widths(alloc, report)?;
    let names = name_columns(&report.moves);
    screen.moves_head(&report.state, &widths, names)?;
    screen.standing(report, &widths)?;
    for (place, listed) in report.moves.iter().enumerate() {
        screen.listed(place.saturating_add(1), listed, &widths, names)?;
    }
    Ok(screen.finish())
}
