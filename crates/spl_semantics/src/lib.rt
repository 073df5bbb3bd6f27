//! What programs do: their steps, their runs, and what is seen of a run.
#![tactic(auto)]

mod actions;
mod acts;
mod blocks;
mod children;
mod components;
mod effects;
mod evaluation;
mod faults;
mod fitting;
mod formulas;
pub mod laws;
mod playing;
mod simple;
mod starts;
mod stepping;
mod surgery;
mod walks;

pub use acts::Move;
pub use evaluation::value_of;
pub use faults::MoveFault;
pub use fitting::store_fits;
pub use formulas::is_true_at;
pub use playing::moves;
pub use starts::start;
