//! What stands in a certificate text, and where a reader is in it: the states of a machine without a stack. Every `}` closes
//! the same way, so what may stand next depends on the depth and the number of trees alone.

pub const MAX_DEPTH: u32 = 400;

pub const MAX_TREES: u32 = 100_000;

pub const MAX_PICKS: u32 = 4_096;

pub const MAX_NUMBER: u64 = 4_294_967_295;

pub const MAX_ENTRY: u64 = 1_152_921_504_606_846_976;

pub const MULTIPLIER_END: u64 = 1_099_511_627_776;

/// The words of certificate texts.
#[derive(Clone, Copy)]
pub enum Word {
    Version,
    Cert,
    Absurd,
    Farkas,
    Linear,
    Case,
    Truth,
    Split,
    Cut,
}

#[derive(Clone, Copy)]
pub enum Token {
    Word(Word),
    Number(u64),
    Sign(u8),
}

/// A node whose branches are numbered by something that the text names.
#[derive(Clone, Copy)]
pub enum Branching {
    Case,
    Truth,
    Split,
}

/// What may stand next.
#[derive(Clone, Copy)]
pub enum Want {
    /// A block, and a header before it where `header` is true.
    Block {
        header: bool,
    },
    HeaderNumber,
    HeaderEnd,
    BlockNumber,
    /// A tree, or the end of its row where `end` is true.
    Tree {
        end: bool,
    },
    Subject(Branching),
    Branches(Branching, u32),
    Picks {
        signed: bool,
    },
    Row {
        signed: bool,
        count: u32,
    },
    Times {
        signed: bool,
        count: u32,
        row: u32,
    },
    Multiplier {
        signed: bool,
        count: u32,
        row: u32,
    },
    Negative {
        count: u32,
        row: u32,
    },
    MorePicks {
        signed: bool,
        count: u32,
    },
    Terms,
    /// A coefficient; `first`: or the sign before the constant; `negative`: its sign is read.
    Coefficient {
        first: bool,
        negative: bool,
        last: u32,
    },
    Colon {
        negative: bool,
        size: u64,
        last: u32,
    },
    Variable {
        negative: bool,
        size: u64,
        last: u32,
    },
    MoreTerms {
        last: u32,
    },
    Constant {
        negative: bool,
    },
    ConstantEnd {
        negative: bool,
        size: u64,
    },
    CutBranches {
        negative: bool,
        size: u64,
    },
    End,
    Whole,
}

#[derive(Clone, Copy)]
pub struct Scan {
    pub want: Want,
    /// The number that the block has to have.
    pub number: u32,
    /// Whether the text is of version 2.
    pub second: bool,
    pub depth: u32,
    pub trees: u32,
}

/// What a token adds to what is built.
#[derive(Clone, Copy)]
pub enum Action {
    Nothing,
    Absurd,
    Enter(Branching, u32),
    Leave,
    Pick {
        signed: bool,
        row: u32,
        negative: bool,
        size: u64,
    },
    Farkas,
    Linear,
    Term {
        variable: u32,
        negative: bool,
        size: u64,
    },
    Cut {
        negative: bool,
        size: u64,
    },
}

#[derive(Clone, Copy)]
pub enum Given {
    On(Scan, Action),
    /// No block is begun with this token.
    Wrong,
    /// The token passes a limit.
    Over,
}
