//! Clauses of formulas with one variable for each chain of `/` or of `+`, however long it is.
#![tactic(auto)]

mod constructs;
mod wide;

pub use constructs::add_wide_constructs;
pub use wide::WideEncoder;
