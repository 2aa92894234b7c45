//! What a stop at any moment leaves of an order desk whose rows are in a journal.
#![tactic(auto)]

mod law;

pub use law::{run_laws, stop_laws};
