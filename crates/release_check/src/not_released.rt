//! Why a text isn't released.

use book_model::{Book, LimitFault};
use book_text::BookFault;
use findings::Report;

/// Why a text isn't released. A report has the findings that matter for a release, and is of the book that the text reads as.
#[derive(Drop)]
pub enum NotReleased {
    /// The text is no book's; this is its first fault.
    Text(BookFault),
    /// Something is wrong with the book, and the report shows it.
    Found { book: Book, report: Report },
    /// Nothing wrong was found, but a question was left when so many clauses were learnt for it as the budget allows. The
    /// report has them.
    Undecided { book: Book, report: Report },
    /// The book is too large to be checked.
    Limit(LimitFault),
}
