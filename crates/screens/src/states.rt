//! The states before and behind a step as one table. An arrow stands behind what the step changes.

use crate::screen::{Ink, Screen, columns};
use proof_reports::Row;
use st_memory::Memory;

/// How many columns stand in front of a table.
const MARGIN: usize = 7;

/// How many columns the names take.
fn name_columns(rows: &[Row]) -> usize {
    let mut most: usize = 5;
    for row in rows {
        most = most.max(columns(&row.name));
    }
    most
}

/// How many columns the values before a step take.
fn before_columns(rows: &[Row]) -> usize {
    let mut most: usize = 6;
    for row in rows {
        most = most.max(columns(&row.before));
    }
    most
}

impl Screen {
    fn table_head(&mut self, names: usize, befores: usize, step: bool) -> Result<(), Memory> {
        self.blanks(MARGIN)?;
        self.cell("", names)?;
        if step {
            self.cell("before", befores)?;
            self.ink(Ink::Rule, "behind")?;
        } else {
            self.ink(Ink::Rule, "state")?;
        }
        self.end()
    }

    fn table_row(&mut self, row: &Row, names: usize, befores: usize) -> Result<(), Memory> {
        self.blanks(MARGIN)?;
        self.cell(&row.name, names)?;
        match &row.after {
            Some(after) => {
                self.cell(&row.before, befores)?;
                if row.changed {
                    self.ink(Ink::Bold, after)?;
                    self.text("   <-")?;
                } else {
                    self.text(after)?;
                }
            }
            None => self.text(&row.before)?,
        }
        self.end()
    }

    /// The table of a state, or of the states before and behind a step; nothing where no state is known.
    pub(crate) fn states(&mut self, rows: &[Row]) -> Result<(), Memory> {
        let Some(first) = rows.first() else {
            return Ok(());
        };
        let names = name_columns(rows);
        let befores = before_columns(rows);
        self.gap()?;
        self.table_head(names, befores, first.after.is_some())?;
        for row in rows {
            self.table_row(row, names, befores)?;
        }
        Ok(())
    }
}
