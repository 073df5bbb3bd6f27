//! Why the walk ends without a certificate.

use search_verdicts::{Shown, WideStage};

/// Why the walk ends without a certificate.
#[derive(Drop)]
pub enum Failure {
    Open(Option<Shown>),
    Wide(WideStage),
}
