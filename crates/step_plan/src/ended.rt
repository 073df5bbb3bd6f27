use crate::Status;

/// A status with its output text.
#[derive(Drop)]
pub struct Ended {
    pub status: Status,
    pub text: Vec<u8>,
}
