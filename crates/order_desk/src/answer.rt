//! What the desk answers to one event.

use crate::shared_book::SharedBook;
use crate::shared_text::SharedText;
use desk_words::{OrderWords, Reply};

/// The answer to one event: what is said to the caller, or what the call needs to go on.
#[derive(Drop)]
pub enum Answer {
    /// The call ends with this reply.
    Say(Reply),
    /// A draft's text and its revision.
    Draft { text: SharedText, revision: u32 },
    /// A book that was asked for, or the one that an order is to be judged by.
    Book(SharedBook),
    /// A kept order, and the book that it was judged by.
    Kept { order: OrderWords, book: SharedBook },
    /// The order is kept now.
    Placed,
}
