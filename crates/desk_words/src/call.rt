//! What the desk is asked for.

use crate::order_words::OrderWords;
use pb_base::{Body, Id};

/// What one caller asks of the desk.
#[derive(Drop)]
pub struct Call {
    pub caller: Id,
    pub what: What,
}

/// What can be asked. Books and orders go by number, drafts by name; a revision counts how often a draft was put, from 1.
#[derive(Drop)]
pub enum What {
    /// Keeps a text as a new draft, or in place of the caller's draft of this name.
    PutDraft {
        draft: Id,
        text: Body,
    },
    /// Hands the caller's draft over to another owner.
    GiveDraft {
        draft: Id,
        to: Id,
    },
    ReadDraft {
        draft: Id,
    },
    ReadOwner {
        draft: Id,
    },
    /// Asks the draft every question, each with at most `budget` learnt clauses, from 1 to 50,000.
    Check {
        draft: Id,
        budget: u32,
    },
    /// Makes a book of the caller's draft, where this is its revision and its text can be released.
    Release {
        draft: Id,
        revision: u32,
        budget: u32,
    },
    ReadBook {
        book: u32,
    },
    ReadCert {
        book: u32,
    },
    /// Takes the book out of force for new orders.
    Withdraw {
        book: u32,
    },
    /// Places an order under a number of the caller's own, from 1 to 999,999,999.
    Order {
        number: u32,
        order: OrderWords,
    },
    ReadOrder {
        number: u32,
    },
    /// Lists the released books, by their numbers.
    ReadBooks,
    /// Lists the caller's orders above a number, by their numbers; at most 1,000.
    ReadOrders {
        after: u32,
    },
    /// Asks what can still be chosen beside the codes of an order to a book in force, each search with at most `budget` learnt
    /// clauses, from 1 to 50,000. Nothing is kept.
    Free {
        order: OrderWords,
        budget: u32,
    },
    /// Asks what an order to a book in force comes to, and how it would be accepted. Else as `Free`.
    Why {
        order: OrderWords,
        budget: u32,
    },
}
