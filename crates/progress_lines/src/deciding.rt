//! How many conditions are decided, and how many of these are open. Each worker counts what it decides; the one that counts when it is
//! time to say it, does so. Counts are read one after the other, so a line may be behind by what others count meanwhile.

ghost use Rattle.std.specs.Prelude.{IsTrue, true};

use crate::pulse::Pulse;
use crate::watching::Watch;
use st_outside::Gate;
use std::io::Eprint;
use std::sync::atomic::AtomicU64;
use std::sync::atomic::Ordering::Relaxed;
use std::time::Clock;

/// A gate that says how far the conditions of a question are decided.
#[derive(Drop)]
pub struct Progress<'a, R: Clock + Eprint> {
    rt: &'a R,
    pulse: Pulse<'a, R>,
    posed: AtomicU64,
    decided: AtomicU64,
    open: AtomicU64,
}

impl<'a, R: Clock + Eprint> Progress<'a, R> {
    pub fn new(rt: &'a R, watch: Watch) -> Progress<'a, R> {
        Progress {
            rt,
            pulse: Pulse::new(rt, watch),
            posed: AtomicU64::new(0),
            decided: AtomicU64::new(0),
            open: AtomicU64::new(0),
        }
    }

    /// Says how far the conditions are. Where this can't be written, nothing is lost.
    fn say(&self) {
        let rt = self.rt;
        let posed = self.posed.load(Relaxed);
        let decided = self.decided.load(Relaxed).min(posed);
        let open = self.open.load(Relaxed);
        let _ = eprintln!(rt; "milkhour: {decided} of {posed} conditions, {open} open");
    }
}

impl<R: Clock + Eprint> Gate for Progress<'_, R> {
    ghost begun = { λ _ _. true };

    ghost ended = { λ _ _. true };

    fn begin(&self, _place: usize)
        ensures { IsTrue true }
    {}

    fn end(&self, _place: usize)
        requires { IsTrue true }
        ensures { IsTrue true }
    {}

    fn posed(&self, count: usize) {
        self.posed.store(count as u64, Relaxed);
        self.decided.store(0, Relaxed);
        self.open.store(0, Relaxed);
    }

    fn decided(&self, count: usize, open: usize) {
        self.decided.fetch_add(count as u64, Relaxed);
        self.open.fetch_add(open as u64, Relaxed);
        if self.pulse.is_due() {
            self.say();
        }
    }
}
