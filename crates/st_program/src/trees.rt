//! Program trees.

use st_form::{Form, Lin};

/// A right side: a whole number, or a truth value.
#[derive(Drop)]
pub enum Value {
    Number(Lin),
    Truth(Form),
}

/// A statement inside a group, which has no label, location or occurrence.
#[derive(Drop)]
pub enum Inner {
    Skip,
    /// Variables get their values at once.
    Assign(Vec<(u32, Value)>),
    Await(Form),
    If {
        test: Form,
        yes: Vec<Inner>,
        no: Vec<Inner>,
    },
}

/// A statement: its number in text order, its location, and what it does.
#[derive(Drop)]
#[cycle(tree)]
pub struct Stmt {
    pub occ: u32,
    pub loc: u32,
    pub kind: Kind,
}

/// What a statement does.
#[derive(Drop)]
#[cycle(tree)]
pub enum Kind {
    Skip,
    /// Variables get their values at once.
    Assign(Vec<(u32, Value)>),
    Await(Form),
    /// Takes one from the variable, where it is above 0.
    Request(u32),
    /// Gives one to the variable.
    Release(u32),
    Noncritical,
    Critical,
    If {
        test: Form,
        yes: Box<Stmt>,
        no: Option<Box<Stmt>>,
    },
    While {
        test: Form,
        body: Box<Stmt>,
    },
    /// One after another.
    Block(Vec<Stmt>),
    /// One of them.
    Select(Vec<Stmt>),
    /// Side by side.
    Cooperate(Vec<Child>),
    /// In one step.
    Group(Vec<Inner>),
}

/// A process or a child of a cooperation: its statements, and the location of its end.
#[derive(Drop)]
#[cycle(tree)]
pub struct Child {
    pub body: Vec<Stmt>,
    pub end: u32,
}
