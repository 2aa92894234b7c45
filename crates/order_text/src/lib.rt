//! The text of what an order comes to.
#![tactic(auto)]

mod outcome;
mod parts;

pub use outcome::{outcome_text, put_accepted, put_refused};
