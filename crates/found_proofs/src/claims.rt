//! What is to be proved.

use response_search::Chain;
use st_form::Form;
use waiting_search::Levels;

/// An invariance, a response whose chain is found, or a waiting-for whose levels are.
#[derive(Drop)]
pub(crate) enum Claim {
    /// The formula holds in every state.
    Invariance(Form),
    /// The chain is one.
    Response(Chain),
    /// The levels meet the conditions of their rule.
    Waiting(Levels),
}
