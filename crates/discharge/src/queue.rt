//! Which conditions a worker takes next: each takes the next group from one counter that all share (Kruskal and Weiss, *Allocating
//! independent subtasks on parallel processors*, 1985), so that no worker is left with all the work, whatever conditions weigh.
//! Conditions that stand together ask the same lists, so a worker's book finds more in it where it has several of them.
//!
//! The counter is a hint: nothing is promised of what it gives, and what no worker has marked is searched at the end.

ghost use Rattle.std.specs.Prelude.{◌<◌};

use std::sync::atomic::AtomicUsize;
use std::sync::atomic::Ordering::Relaxed;

/// How many groups there are for each worker, where there are as many conditions.
const GROUPS: usize = 16;

/// Where the next group begins, and how many conditions a group has.
#[derive(Drop)]
pub(crate) struct Queue {
    next: AtomicUsize,
    size: usize,
}

impl Queue {
    pub fn new(count: usize, workers: u32) -> Queue
        requires { 0 < workers }
    {
        Queue {
            next: AtomicUsize::new(0),
            size: (count / GROUPS / workers as usize).max(1),
        }
    }

    /// The places of the next group: from one, to before another.
    pub fn take(&self) -> (usize, usize) {
        let from = self.next.fetch_add(self.size, Relaxed);
        (from, from.saturating_add(self.size))
    }

    /// Leaves no group to take, of so many conditions.
    pub fn close(&self, count: usize) {
        self.next.store(count, Relaxed);
    }
}
