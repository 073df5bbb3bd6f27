//! What a variable of a program is.

/// A variable: whether the program never changes it, and whether it is boolean; otherwise it is an integer variable.
#[derive(Clone, Copy, Debug, PartialEq, Eq)]
pub struct Variable {
    pub input: bool,
    pub truth: bool,
}
