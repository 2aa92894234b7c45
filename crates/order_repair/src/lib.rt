//! What an order comes to, and how it would be accepted.
#![tactic(auto)]

mod answer;
mod changing;
mod keeping;
mod lines;
mod places;
mod text;
mod why;

pub use answer::{Change, Kept, Repair, WhyAnswer};
pub use text::why_text;
pub use why::why_answer;
