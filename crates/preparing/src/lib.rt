//! What makes chains short: shared disjunctions, codes that exclude each other, and goals that propagation refutes.
#![tactic(auto)]

mod exclude;
mod gates;
mod refute;
mod refuter;
mod share;
mod shortcut;

pub use refute::Implied;
pub use refuter::Refuter;
