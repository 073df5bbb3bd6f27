use crate::raw::RawStatement;
use st_reading::RawName;

/// What stands behind a `;` in a body.
#[derive(Drop)]
pub enum Item<'a> {
    /// The label of its end, with the `]`.
    Last(RawName<'a>),
    Statement(RawStatement<'a>),
}
