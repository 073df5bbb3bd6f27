//! What holds of each element of a list, as one definition with its lemmas, for the definitions and proofs of all strands. There is
//! no code.
#![tactic(auto)]
