//! What an order comes to and what can be chosen beside its codes, and the text that tells it.
#![tactic(auto)]

mod answer;
mod lines;
mod text;

pub use answer::{FreeAnswer, free_answer};
pub use text::free_text;
