//! What is known of a slice before a question is asked: the sets that were found, what short clauses say of the goals, and where
//! a search is pointed.
#![tactic(auto)]

mod found;
mod guiding;
mod implying;
mod pairs;
mod sets;
mod units;
mod usages;

pub use found::{Found, found_with};
pub use guiding::guide;
pub use implying::{BothImplied, implied};
pub use pairs::{by_second, is_pair, may_be_met, pairs_at};
pub use sets::Sets;
pub use units::Units;
pub use usages::Usages;
