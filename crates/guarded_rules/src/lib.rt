//! The clauses of rules, each of which holds only where its guard is true.
#![tactic(auto)]

mod items;

pub use items::{add_guarded_demand, add_guarded_supplement};
