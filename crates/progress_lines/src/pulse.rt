//! When it is time to say how far a work is.

use crate::watching::{PATIENCE, Watch};
use std::sync::atomic::AtomicU64;
use std::sync::atomic::Ordering::Relaxed;
use std::time::Clock;

/// How many milliseconds go by between two lines.
const PERIOD: u64 = 1000;

/// The times at which it is said how far a work is. Several threads may ask; one of them is told that it is time.
#[derive(Drop)]
pub struct Pulse<'a, R: Clock> {
    rt: &'a R,
    watch: Watch,
    /// Behind how many milliseconds it is said again.
    due: AtomicU64,
}

impl<'a, R: Clock> Pulse<'a, R> {
    pub fn new(rt: &'a R, watch: Watch) -> Pulse<'a, R> {
        Pulse {
            rt,
            watch,
            due: AtomicU64::new(PATIENCE),
        }
    }

    /// Whether it is time to say it, and nobody else does.
    pub fn is_due(&self) -> bool {
        let gone = self.watch.gone(self.rt);
        let due = self.due.load(Relaxed);
        due < gone
            && self
                .due
                .compare_exchange(due, gone.saturating_add(PERIOD), Relaxed, Relaxed)
                .is_ok()
    }
}
