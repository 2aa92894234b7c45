//! The search for a set that satisfies clauses with assumed literals, or for a clause that shows why there is
//! none.
#![tactic(auto)]

mod analyze;
mod answer;
mod assume;
mod backjump;
mod closing;
mod conflict;
mod decide;
mod deriver;
mod marks;
mod minimize;
mod order;
mod rank;
mod resolution;
mod run;
mod solver;
mod way;

pub use answer::Answer;
pub use deriver::Deriver;
pub use solver::{Assumed, Solver};
