//! The nodes of a table.

/// How a branch divides its problem.
#[derive(Clone, Copy, PartialEq, Eq)]
pub enum Step {
    /// By the alternatives of this component.
    Case(u32),
    /// By the truth of this boolean variable.
    Truth(u32),
    /// By the disjuncts of this disjunction among the conjuncts.
    Split(u32),
}

/// What a tree is made of: its parts and picks are found elsewhere in the table, by number.
#[derive(Clone, Copy)]
pub enum Kind {
    /// The problem is false.
    Absurd,
    /// So many picks, from this place in the list of picks on.
    Linear(u32, u32),
    /// This step over so many parts, from this place in the list of parts on.
    Branch(Step, u32, u32),
}

/// How large a tree is, counted to just above the limits.
#[derive(Clone, Copy)]
pub struct Size {
    pub nodes: u32,
    pub levels: u32,
}

/// A tree of the table.
#[derive(Clone, Copy)]
pub struct Node {
    pub kind: Kind,
    pub size: Size,
}
