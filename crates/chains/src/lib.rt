//! Chains over a kernel: further clauses by chains that may have a resolvent, chains kept without their clauses, and derived
//! again where the clauses stand elsewhere.
#![tactic(auto)]

mod again;
mod derived;
mod needed;
mod places;
mod trace;

pub use again::{derive_again, rederive};
pub use derived::{derive, refuting_unit};
pub use needed::{Needed, derive_needed};
pub use places::{PlaceMap, Places};
pub use trace::{Step, Trace};
