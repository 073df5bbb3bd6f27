//! Certificate texts of version 3 as texts of version 2, and texts of versions 1 and 2 as texts of version 3.
#![tactic(auto)]

mod header;
mod sharing;
mod unfolding;

pub use header::is_version_3;
pub use sharing::{Unread, shared_text};
pub use unfolding::{Unfit, unfolded};
