//! The search over lists of conjuncts, and the law that it finds what the search over problems finds.
//!
//! The search divides problems, which are decisions and conjuncts. What it does at a problem hangs on the conjuncts and on
//! the decisions of the components that have others inside, the context. So each list of conjuncts need be searched only
//! once in each context: tabling, as in logic programming (Tamaki and Sato, *OLD resolution with tabulation*, 1986).
#![tactic(auto)]

pub mod laws;
