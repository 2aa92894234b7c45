//! The clauses of a whole book, coded once for all its days: what a rule claims holds where the variable of its period is true.
#![tactic(auto)]

mod coding;
mod periods;

pub use coding::{BookClauses, book_clauses};
pub use periods::periods_on;
