//! Where elimination gives up.

/// The stage at which a limit is met: while the lines are collected from a tree, while they are begun with, or while a
/// variable is eliminated.
#[derive(Debug, Drop)]
pub enum WideStage {
    Tree,
    Rows,
    Variable(u32),
}
