//! What happens at the desk.

use crate::new_book::NewBook;
use desk_words::OrderWords;
use pb_base::{Body, Id};

/// One step that is asked of the desk. Drafts go by name, books by number, counted from 1, and orders by the numbers that their
/// callers give them.
#[derive(Drop)]
pub enum Event {
    /// Keeps a text as a new draft, or in place of the caller's draft of this name.
    PutDraft {
        caller: Id,
        draft: Id,
        text: Body,
    },
    /// Hands the caller's draft over to another owner.
    GiveDraft {
        caller: Id,
        draft: Id,
        to: Id,
    },
    /// Keeps the book of the caller's draft at this revision, which was released meanwhile.
    Commit {
        caller: Id,
        draft: Id,
        revision: u32,
        released: NewBook,
    },
    /// Takes a book out of force for new orders. The caller owns the book's draft.
    Withdraw {
        caller: Id,
        book: u32,
    },
    /// Keeps an order that its book accepts.
    Place {
        caller: Id,
        number: u32,
        order: OrderWords,
    },
    /// Asks for something that is kept. It changes nothing.
    Read(Reading),
}

/// What is asked of the desk that changes nothing.
#[derive(Drop)]
pub enum Reading {
    /// A draft's text, which is not copied, and its revision.
    Draft {
        draft: Id,
    },
    /// Whose a draft is, and its revision.
    Owner {
        draft: Id,
    },
    /// The caller's draft, to check or to release it. Where a revision is named, it is to be released: the draft must have just
    /// this one, which was not released before, and there must be room for a book.
    Take {
        caller: Id,
        draft: Id,
        revision: Option<u32>,
    },
    /// A book, in force or not. Its text and its certificate are not copied.
    Book {
        book: u32,
    },
    /// A book that is in force.
    InForce {
        book: u32,
    },
    /// Whether an order is kept under this number, and else the book that it is to be judged by.
    Look {
        caller: Id,
        number: u32,
        order: OrderWords,
    },
    /// The caller's order of this number, with its book.
    Order {
        caller: Id,
        number: u32,
    },
    /// A list of all books, in force or not.
    Books,
    /// A list of the caller's orders above a number, which need be no order's: the first `MOST_LISTED` of them.
    Orders {
        caller: Id,
        after: u32,
    },
}
