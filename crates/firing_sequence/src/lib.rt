//! The sequence in which the supplementing rules of a book would fire, compared with that of another book.
#![tactic(auto)]

mod order;
mod same;

pub use same::same_sequences;
