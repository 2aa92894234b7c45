//! Turns at one machine: threads call it one after the other, and every call stands once in one history.
#![tactic(auto)]

mod book;
mod entry;
mod machine;
mod pass;
mod plays;
mod slot;
mod steps;
mod view;

pub use book::TurnBook;
pub use entry::Entry;
pub use machine::Machine;
pub use pass::Pass;
