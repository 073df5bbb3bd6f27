//! Trees by number.

use st_linear::Lin;

/// How a branch divides its problem. Components, variables and disjunctions count from 0.
#[derive(Drop)]
pub enum Step {
    /// By the alternatives of this component.
    Case(u32),
    /// By the truth of this boolean variable.
    Truth(u32),
    /// By the disjuncts of this disjunction among the conjuncts.
    Split(u32),
    /// By this form being at least 0, or below. It stands behind a pointer, so that every node is small.
    Cut(Box<Lin>),
}

/// A tree of certificates. Its parts are numbers of trees before it.
#[derive(Drop)]
pub enum Node {
    /// The problem is false.
    Absurd,
    /// Rows, each with a multiplier, whose sum is a negative constant.
    Farkas(Vec<(u32, u64)>),
    /// Rows and equations, each with a multiplier, whose sum is a negative constant.
    Linear(Vec<(u32, i64)>),
    /// This step, with a tree for each part of the problem.
    Branch(Step, Vec<u32>),
}

/// Trees by number, counted from 0, and the tree of each condition.
#[derive(Drop)]
pub struct Table {
    pub nodes: Vec<Node>,
    /// How many levels each tree has.
    pub levels: Vec<u32>,
    /// The number of each condition's tree.
    pub roots: Vec<u32>,
}
