//! A state in which an open condition is false, where the first search shows none.
#![tactic(auto)]

mod testing;

pub use shown_states::Picture;
pub use testing::tested_state;
