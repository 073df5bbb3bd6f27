//! The trees of expressions, with names as slices of the text and with the places that the typing rules name. Places are
//! byte offsets from 0. An expression and the same one in parentheses aren't told apart, but for its place.

use st_reading::RawName;

/// The operators between two expressions.
#[derive(Clone, Copy, Debug, PartialEq, Eq)]
pub enum Operator {
    Implies,
    Equal,
    Unequal,
    Less,
    AtMost,
    Greater,
    AtLeast,
    Plus,
    Minus,
    Times,
}

/// An expression. The place is that of its first token, a parenthesis included.
#[derive(Drop)]
#[cycle(raw)]
pub struct RawExpr<'a> {
    pub place: u64,
    pub kind: RawExprKind<'a>,
}

/// What an expression is. `at` is the place of an operator. `All` and `Any` are one chain of `/\` or `\/` each, of two
/// items at least.
#[derive(Drop)]
#[cycle(raw)]
pub enum RawExprKind<'a> {
    Numeral(u32),
    Truth(bool),
    Name(RawName<'a>),
    /// `at` and a label, which stands in proofs alone and in no program.
    At(RawName<'a>),
    Not(Box<RawExpr<'a>>),
    Negate {
        at: u64,
        of: Box<RawExpr<'a>>,
    },
    All(Vec<RawExpr<'a>>),
    Any(Vec<RawExpr<'a>>),
    /// Terms with `+` and `-` between them, or factors with `*`, grouped from the left. At least one stands behind the first.
    Chain {
        first: Box<RawExpr<'a>>,
        rest: Vec<RawTerm<'a>>,
    },
    /// A comparison or an implication.
    Pair {
        operator: Operator,
        at: u64,
        left: Box<RawExpr<'a>>,
        right: Box<RawExpr<'a>>,
    },
}

/// A further term or factor of a chain: the operator before it, the operator's place, and the expression.
#[derive(Drop)]
#[cycle(raw)]
pub struct RawTerm<'a> {
    pub operator: Operator,
    pub at: u64,
    pub of: RawExpr<'a>,
}
