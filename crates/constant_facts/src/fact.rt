//! Facts.

/// A value of a variable.
#[derive(Clone, Copy, Debug, PartialEq, Eq)]
pub enum Constant {
    Number(i128),
    Truth(bool),
}

/// Where control is at the location, the variable has the value.
#[derive(Clone, Copy, Debug, PartialEq, Eq)]
pub struct Fact {
    pub place: u32,
    pub variable: u32,
    pub value: Constant,
}
