//! Lists of blocks against lists of conditions, as definitions: what a check of them asks, and which block is the first
//! that isn't valid for the condition at its place.
#![tactic(auto)]
