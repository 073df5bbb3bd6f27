use step_report::Reason;

/// What a file of certificates says of conditions.
#[derive(Clone, Copy, Debug, PartialEq, Eq)]
pub enum Finding {
    /// All conditions are discharged. What isn't blank behind the last block stands at this place, if there is any.
    Discharged(Option<u64>),
    /// The condition of this number, from 1 on, is the first that isn't discharged.
    Refused(u32, Reason),
}
