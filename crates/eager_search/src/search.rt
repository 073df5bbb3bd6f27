//! What a search carries along.

use crate::items::Item;
use crate::plans::Plans;
use control_states::{Alternative, Components};
use st_form::Variable;
use st_memory::Memory;
use std::alloc::Global;

/// What is decided of components and of boolean variables, and whole values of the others, with which all conjuncts of a problem are true.
#[derive(Drop)]
pub(crate) struct Point {
    pub(crate) cases: Vec<Option<Alternative>>,
    pub(crate) truths: Vec<Option<bool>>,
    pub(crate) numbers: Vec<i128>,
}

/// The program's components and variables, the plans so far, how many problems may still be looked at, and where the search has ended at a
/// problem that is true somewhere, that point.
#[derive(Drop)]
pub(crate) struct Search<'a> {
    pub(crate) components: &'a Components,
    pub(crate) variables: &'a [Variable],
    pub(crate) plans: Plans,
    pub(crate) left: u32,
    pub(crate) point: Option<Point>,
}

/// A problem: what is decided of components and of boolean variables, its conjuncts, and how many cuts at a fraction may still be made
/// one in the other.
#[derive(Clone, Copy)]
pub(crate) struct Node<'a> {
    pub(crate) cases: &'a [Option<Alternative>],
    pub(crate) truths: &'a [Option<bool>],
    pub(crate) items: &'a [Item<'a>],
    pub(crate) cuts: u32,
}

/// A plan of a problem, and which of the problem's conjuncts it uses.
#[derive(Drop)]
pub(crate) struct Found {
    pub(crate) plan: usize,
    pub(crate) used: Vec<bool>,
}

/// The plan of a part of a division, which of the divided problem's conjuncts it uses, and whether it uses what the division made.
#[derive(Drop)]
pub(crate) struct Branch {
    pub(crate) plan: usize,
    pub(crate) used: Vec<bool>,
    pub(crate) needs_division: bool,
}

impl Search<'_> {
    /// Keeps the point at which a problem of lines alone is true.
    pub(crate) fn keep(
        &mut self,
        alloc: Global,
        node: Node,
        numbers: Vec<i128>,
    ) -> Result<(), Memory> {
        self.point = Some(Point {
            cases: Vec::from_slice(alloc, node.cases)?,
            truths: Vec::from_slice(alloc, node.truths)?,
            numbers,
        });
        Ok(())
    }

    /// The number of variables, or the largest of 32 bits.
    pub(crate) fn width(&self) -> u32 {
        u32::try_from(self.variables.len()).unwrap_or(u32::MAX)
    }
}
