/// What is asked of texts.
#[derive(Clone, Copy, Debug, PartialEq, Eq)]
pub enum Question {
    /// Whether the certificates show each condition.
    Check,
    /// Whether the search decides each condition valid.
    Verify,
    /// The same, and the certificates that it finds.
    Prove,
    /// What holds on the run of a schedule.
    Trace,
    /// Which linear equations hold on every run.
    Invariants,
}
