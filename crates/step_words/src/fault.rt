use thiserror::Error;

/// Why no request is read.
#[derive(Error, Debug, Clone, Copy, PartialEq, Eq)]
pub enum WordsFault {
    /// The words make no request.
    #[error("words refused")]
    Refused,
    #[error("out of memory")]
    Memory,
}
