//! Who checks a batch: the workers, and what they are started and told by.

ghost use Rattle.std.specs.Prelude.{◌<◌};

use std::alloc::Global;

/// The runtime that forks, the allocator, the gate that is told of each piece, and how many workers there are.
#[derive(Drop)]
pub(crate) struct Crew<'a, R, G> {
    pub(crate) rt: &'a R,
    pub(crate) alloc: Global,
    pub(crate) gate: &'a G,
    pub(crate) workers: u32,
    ghost some: { 0 < workers },
}
