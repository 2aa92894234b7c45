//! Chains of a slice that serve again: in the next slice, and in a certificate with no more steps than its closings rest on.
#![tactic(auto)]

mod earlier;
mod moves;
mod short;

pub use earlier::EarlierChains;
pub use short::shorten;
