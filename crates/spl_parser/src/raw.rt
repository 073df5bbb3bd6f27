//! The trees of statements and programs, with names as slices of the text and with the places that the typing rules name.
//! Places are byte offsets from 0. `local` and `out` are not told apart.

use expression_parser::RawExpr;
use st_reading::RawName;

/// Statements behind one another, and the label of their end.
#[derive(Drop)]
#[cycle(stated)]
pub struct RawBody<'a> {
    pub statements: Vec<RawStatement<'a>>,
    pub end: Option<RawName<'a>>,
}

/// A statement. The place is that of the first token behind the label.
#[derive(Drop)]
#[cycle(stated)]
pub struct RawStatement<'a> {
    pub label: Option<RawName<'a>>,
    pub place: u64,
    pub kind: RawKind<'a>,
}

/// What a statement is. The statements inside a group have no label, nor has what stands inside them.
#[derive(Drop)]
#[cycle(stated)]
pub enum RawKind<'a> {
    Skip,
    Critical,
    Noncritical,
    Assign(RawName<'a>, RawExpr<'a>),
    /// `list` is the place of the right list's `(`.
    AssignAll {
        targets: Vec<RawName<'a>>,
        list: u64,
        values: Vec<RawExpr<'a>>,
    },
    Await(RawExpr<'a>),
    Request(RawName<'a>),
    Release(RawName<'a>),
    If {
        test: RawExpr<'a>,
        yes: Box<RawStatement<'a>>,
        no: Option<Box<RawStatement<'a>>>,
    },
    While {
        test: RawExpr<'a>,
        body: Box<RawStatement<'a>>,
    },
    Loop(Box<RawStatement<'a>>),
    Block(Vec<RawStatement<'a>>),
    Select(Vec<RawStatement<'a>>),
    Cooperate(Vec<RawBody<'a>>),
    Group(Vec<RawStatement<'a>>),
}

/// Names of one type at the head of a program or process; `initial` is the formula behind `where`.
#[derive(Drop)]
pub struct RawDeclaration<'a> {
    pub input: bool,
    pub names: Vec<RawName<'a>>,
    pub truth: bool,
    pub initial: Option<RawExpr<'a>>,
}

/// A process: its name, the declarations at its head, and its statements.
#[derive(Drop)]
pub struct RawProcess<'a> {
    pub name: RawName<'a>,
    pub declarations: Vec<RawDeclaration<'a>>,
    pub body: RawBody<'a>,
}

/// A whole program.
#[derive(Drop)]
pub struct RawProgram<'a> {
    pub declarations: Vec<RawDeclaration<'a>>,
    pub processes: Vec<RawProcess<'a>>,
}
