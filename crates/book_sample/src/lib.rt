//! Generated books and orders, for whoever wants to see partsbook at work, or to measure it.
#![tactic(auto)]

mod book;
mod draws;
mod group;
mod law;
mod lines;
mod names;
mod sampler;
mod written;

pub use book::sample_book;
pub use law::sample_law;
pub use sampler::Sampler;
pub use written::reads_back;
