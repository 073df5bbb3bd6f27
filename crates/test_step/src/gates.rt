//! Gates that see what no contract says: that two pieces run side by side, and that a piece has ended.

ghost use Rattle.std.specs.Prelude.{IsTrue, true};

use st_outside::Gate;
use std::sync::atomic::AtomicU64;
use std::sync::atomic::Ordering::SeqCst;

/// Lets piece 0 end only after piece 1 has begun, and gives up after many turns with a mark.
#[derive(Drop)]
pub struct SideBySide {
    begun: AtomicU64,
    marks: AtomicU64,
}

impl SideBySide {
    pub fn new() -> SideBySide {
        SideBySide {
            begun: AtomicU64::new(0),
            marks: AtomicU64::new(0),
        }
    }

    /// How often it gave up.
    pub fn marks(&self) -> u64 {
        self.marks.load(SeqCst)
    }
}

impl Gate for SideBySide {
    ghost begun = { λ _ _. true };

    ghost ended = { λ _ _. true };

    fn begin(&self, place: usize)
        ensures { IsTrue true }
    {
        if place == 1 {
            self.begun.store(1, SeqCst);
        }
    }

    fn end(&self, place: usize)
        requires { IsTrue true }
        ensures { IsTrue true }
    {
        if place != 0 {
            return;
        }
        for _ in 0..268435456u32 {
            if self.begun.load(SeqCst) == 1 {
                return;
            }
        }
        self.marks.store(1, SeqCst);
    }

    fn posed(&self, _count: usize) {}

    fn decided(&self, _count: usize, _open: usize) {}
}

/// Keeps in mind that a piece has ended.
#[derive(Drop)]
pub struct Ended {
    ended: AtomicU64,
}

impl Ended {
    pub fn new() -> Ended {
        Ended {
            ended: AtomicU64::new(0),
        }
    }

    /// 1 once a piece has ended.
    pub fn ended(&self) -> u64 {
        self.ended.load(SeqCst)
    }
}

impl Gate for Ended {
    ghost begun = { λ _ _. true };

    ghost ended = { λ _ _. true };

    fn begin(&self, _place: usize)
        ensures { IsTrue true }
    {}

    fn end(&self, _place: usize)
        requires { IsTrue true }
        ensures { IsTrue true }
    {
        self.ended.store(1, SeqCst);
    }

    fn posed(&self, _count: usize) {}

    fn decided(&self, _count: usize, _open: usize) {}
}
