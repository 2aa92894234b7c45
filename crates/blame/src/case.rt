//! A rule and entries of which is asked which are to blame that no set meets them all together.

use crate::entries::Entry;
use book_model::Book;
use pb_base::{Day, Formula};

/// A rule of a book for a day, and entries that are active then.
#[derive(Clone, Copy)]
pub(crate) struct Case<'a> {
    pub(crate) book: &'a Book,
    pub(crate) day: Day,
    pub(crate) rule: &'a Formula,
    pub(crate) entries: &'a [Entry],
}
