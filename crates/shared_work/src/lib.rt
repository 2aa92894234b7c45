//! Work that several workers share, each over a run of neighbours.
#![tactic(auto)]

mod joined;
mod shared;
mod work;

pub use shared::make_all;
pub use work::Work;
