//! Searches for sets of codes by a solver, over the clauses of items and over others.
#![tactic(auto)]

mod outcome;
mod searching;

pub use outcome::Outcome;
pub use searching::{search, solver_over};
