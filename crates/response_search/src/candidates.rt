//! What may become an item: a base with no, one or two literals.

use st_memory::Memory;
use std::alloc::Global;

/// Which literals a candidate has beside its base, by number.
#[derive(Clone, Copy, PartialEq, Eq, PartialOrd, Ord)]
pub(crate) enum Width {
    None,
    One(usize),
    Two(usize, usize),
}

/// A candidate: the numbers of its base and of its literals.
#[derive(Clone, Copy, PartialEq, Eq, PartialOrd, Ord)]
pub(crate) struct Candidate {
    pub(crate) base: usize,
    pub(crate) width: Width,
}

/// The rounds of one literal at most, in order: near bases first, and few literals first.
pub(crate) const NARROW: [(bool, usize); 4] = [(true, 0), (true, 1), (false, 0), (false, 1)];

/// The rounds of pairs of literals.
pub(crate) const WIDE: [(bool, usize); 2] = [(true, 2), (false, 2)];

/// All ways to take so many literals of a number of them.
pub(crate) fn widths(alloc: Global, taken: usize, count: usize) -> Result<Vec<Width>, Memory> {
    let mut out = Vec::new(alloc);
    match taken {
        0 => out.push(Width::None)?,
        1 => {
            for one in 0..count {
                out.push(Width::One(one))?;
            }
        }
        _ => {
            for one in 0..count {
                for other in 0..one {
                    out.push(Width::Two(other, one))?;
                }
            }
        }
    }
    Ok(out)
}
