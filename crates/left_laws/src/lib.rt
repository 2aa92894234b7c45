//! What the answers to questions about cars mean for the orders of a book.
#![tactic(auto)]

mod laws;

pub use laws::left_laws;
