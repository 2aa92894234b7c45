//! Codes that are added to an order so that it is accepted, none of them without need.
#![tactic(auto)]

mod adding;
mod demanding;
mod judge;
mod runs;
mod settled;

pub use adding::add;
