//! Lines of a linear problem.

use crate::linear::Lin;

/// A row, whose form is at least 0, or an equation, whose form is 0.
#[derive(Drop)]
pub struct Line {
    pub form: Lin,
    pub equal: bool,
}
