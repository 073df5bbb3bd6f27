//! Elimination of variables from linear equations and inequalities over whole numbers, as definitions, and its two laws.
//!
//! Where an equation contains the variable, it is solved by it; otherwise each lower bound is paired with each upper
//! bound. This is Gaussian elimination and Fourier-Motzkin elimination (Schrijver, *Theory of Linear and Integer
//! Programming*, 1986, sections 3.3 and 12.2), with limits on sizes and on the number of lines, and with each line's
//! multiples of input lines carried along.
#![tactic(auto)]

pub mod laws;
mod stage;

pub use stage::WideStage;
