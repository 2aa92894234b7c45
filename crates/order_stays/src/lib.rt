//! Which codes of an order can stay together, and which have to be left out.
#![tactic(auto)]

mod clash;
mod finding;
mod stay;
mod staying;
mod together;

pub use stay::{Stay, Staying, Together};
pub use staying::codes_that_stay;
pub use together::stay_or_blame;
