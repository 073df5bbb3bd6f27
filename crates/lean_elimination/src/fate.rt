//! What becomes of a row.

/// A row stays, or it is a constant that holds or can't hold.
pub(crate) enum Fate {
    Stays,
    Goes,
    Clashes,
}
