//! What the desk answers.

use book_model::LimitFault;
use book_text::BookFault;
use parts_usage::OrderFault;
use pb_base::{Body, Day, Id};

/// What there is none of.
#[derive(Clone, Copy, Debug, PartialEq, Eq)]
pub enum Missing {
    Draft,
    Book,
    Order,
}

/// What can't grow further.
#[derive(Clone, Copy, Debug, PartialEq, Eq)]
pub enum FullOf {
    Drafts,
    /// The draft's revision is the highest that there is.
    Revisions,
    Books,
    Orders,
    /// The calls that this run may make are used up.
    Calls,
}

/// The answer to one call.
#[derive(Drop)]
pub enum Reply {
    /// The draft is kept under this revision, 1 where it is new.
    Kept { draft: Id, revision: u32 },
    /// The draft belongs to `to` now.
    Given { draft: Id, to: Id },
    /// The text of a draft or of a book, as it was put.
    Raw(Body),
    /// The certificate of a book.
    Cert(Body),
    OwnerIs { owner: Id, revision: u32 },
    /// The report of a checked draft; what can still be chosen beside an order; how an order would be accepted; or a list of books
    /// or of orders.
    Report(Body),
    /// The book of a released draft; fresh where this call made it.
    BookIs { number: u32, fresh: bool },
    /// The order is kept, with the text of its outcome; fresh where this call placed it.
    Placed { fresh: bool, text: Body },
    /// A kept order: its book, its day, and the text of its outcome.
    OrderIs { book: u32, day: Day, text: Body },
    /// The book is out of force.
    Withdrawn(u32),
    /// The draft, or the book's draft, belongs to another caller.
    NotOwner(Id),
    NoSuch(Missing),
    /// The order's book is out of force.
    Gone(u32),
    /// The draft has this other revision.
    Changed(u32),
    /// The caller's number is taken by another order, against this book.
    NumberUsed(u32),
    /// The draft's text is no book.
    TextRefused(BookFault),
    /// The draft can't be released: the report has what was found.
    Found(Body),
    /// Whether the draft can be released stayed open: the report has the open questions.
    Undecided(Body),
    /// Checking the draft exceeds a limit.
    Limit(LimitFault),
    /// The constructibility rule of this name refuses the order.
    Refused(Id),
    OrderFault(OrderFault),
    /// A write failed, and nothing was kept; with the counts of faults before and after it.
    StoreFault { before: u64, after: u64 },
    Full(FullOf),
    /// Want of memory. The call may be made again.
    Memory,
}
