//! Two books that are compared on a day.

use crate::joint::Joint;
use book_model::Book;
use pb_base::Day;

/// Two books on a day, and their clauses.
#[derive(Drop)]
pub(crate) struct Comparing<'a> {
    pub(crate) joint: Joint,
    pub(crate) first: &'a Book,
    pub(crate) second: &'a Book,
    pub(crate) day: Day,
}
