//! Completing an order: a book's supplementing rules add the codes that follow from what was ordered.
#![tactic(auto)]

mod completed;
mod completer;
mod completion;
mod firing;
mod occurrences;
mod plain;
mod standing;
mod tables;
mod worklist;

pub use completed::{Added, AddedList, Completed};
pub use completer::Completer;
pub use plain::complete_plainly;
pub use tables::CompletionTables;
