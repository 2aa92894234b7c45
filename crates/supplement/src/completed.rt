//! What completing an order gives.

use pb_base::{CodeSet, Sequence};

/// A code that completing added, and the rule that added it.
#[derive(Clone, Copy, Debug, PartialEq, Eq)]
pub struct Added {
    /// The place of the code among the codes of the book, counted from 0.
    pub code: u32,
    /// The place of the rule among the supplementing rules of the book, counted from 0.
    pub rule: u32,
}

/// Codes that were added, in order of adding.
pub type AddedList = Sequence<Added>;

/// A completed set, and how it was completed.
#[derive(Drop)]
pub struct Completed {
    pub set: CodeSet,
    pub added: AddedList,
}
