//! How far a search for invariants is, on standard error.

use found_proofs::{Counts, Observer};
use progress_lines::{Pulse, Watch};
use std::io::Eprint;
use std::time::Clock;

/// An observer that says how far a search is, once in a second.
#[derive(Drop)]
pub struct SearchLines<'a, R: Clock + Eprint> {
    rt: &'a R,
    pulse: Pulse<'a, R>,
}

impl<'a, R: Clock + Eprint> SearchLines<'a, R> {
    pub fn new(rt: &'a R, watch: Watch) -> SearchLines<'a, R> {
        SearchLines {
            rt,
            pulse: Pulse::new(rt, watch),
        }
    }
}

impl<R: Clock + Eprint> Observer for SearchLines<'_, R> {
    /// Where this can't be written, nothing is lost.
    fn at(&self, counts: Counts) {
        if !self.pulse.is_due() {
            return;
        }
        let rt = self.rt;
        let _ = eprintln!(rt;
            "milkhour: level {}, {} lemmas, {} obligations, {} questions",
            counts.level, counts.lemmas, counts.obligations, counts.queries
        );
    }
}
