//! What is wrong with a text: of each fault its place and sentence, the line, what stands beside it, and help.

ghost use Rattle.std.specs.Prelude.{IfOk};
ghost use Rattle.std.specs.String.{string_bytes};
ghost use Rattle.screens.specs.Tame.{IsScreen};

use crate::screen::{Ink, Screen, Style};
use proof_reports::{Fault, Severity};
use st_memory::Memory;
use std::alloc::Global;

impl Screen {
    /// Where a fault is, and what it is.
    fn fault_heading(&mut self, fault: &Fault) -> Result<(), Memory> {
        let alloc = self.alloc;
        if let Some(spot) = fault.spots.first() {
            let place = format!(in alloc; "{}:{}:{}: ", spot.file, spot.line, spot.column)?;
            self.ink(Ink::Bold, &place)?;
        }
        match fault.severity {
            Severity::Error => self.ink(Ink::Bad, "error")?,
            Severity::Warning => self.ink(Ink::Rule, "warning")?,
        }
        let sentence = format!(in alloc; ": {}", fault.sentence)?;
        self.ink(Ink::Bold, &sentence)?;
        let code = format!(in alloc; " [{}]", fault.code)?;
        self.text(&code)?;
        self.end()
    }

    fn fault(&mut self, fault: &Fault) -> Result<(), Memory> {
        let alloc = self.alloc;
        self.fault_heading(fault)?;
        if let Some((first, others)) = fault.spots.split_first() {
            self.quotation(first)?;
            for spot in others {
                self.spot(spot, ":::")?;
            }
        }
        for help in &fault.help {
            let line = format!(in alloc; "help: {help}")?;
            self.remark(&line)?;
        }
        Ok(())
    }
}

/// The screen of faults and of warnings, in their order.
pub fn faults_screen(alloc: Global, faults: &[Fault], style: Style) -> Result<String, Memory>
    ensures { IfOk result (λ s. ∥ IsScreen (string_bytes s) ∥₁) }
{
    let mut screen = Screen::new(alloc, style);
    for fault in faults {
        screen.fault(fault)?;
    }
    Ok(screen.finish())
}
