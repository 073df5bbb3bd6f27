//! A watch over a work that somebody waits for at a terminal.

use std::time::{Clock, Instant};

/// How many milliseconds a work takes that says nothing of how far it is.
pub(crate) const PATIENCE: u64 = 500;

/// When a work began, where it is said how far it is.
#[derive(Clone, Copy)]
pub struct Watch {
    begun: Option<Instant>,
}

impl Watch {
    /// Says nothing.
    pub fn silent() -> Watch {
        Watch { begun: None }
    }

    /// Begins to watch a work, where standard error is a terminal and there is a clock.
    pub fn begin<R: Clock>(rt: &R, is_error_terminal: bool) -> Watch {
        let begun = match Instant::now(rt) {
            Ok(now) if is_error_terminal => Some(now),
            _ => None,
        };
        Watch { begun }
    }

    /// How many milliseconds have gone by; none where nothing is said.
    pub(crate) fn gone<R: Clock>(self, rt: &R) -> u64 {
        let Some(begun) = self.begun else {
            return 0;
        };
        match begun.elapsed(rt) {
            Ok(gone) => u64::try_from(gone.as_millis()).unwrap_or(u64::MAX),
            Err(_) => 0,
        }
    }

    /// Whether the work takes so long that it is said how far it is.
    pub fn is_late<R: Clock>(self, rt: &R) -> bool {
        PATIENCE < self.gone(rt)
    }
}
