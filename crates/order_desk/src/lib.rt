//! The order desk: drafts, released books and kept orders, which change by one event after the other, and the rows that are kept of them.
#![tactic(auto)]

mod answer;
mod book_rows;
mod checking;
mod desk;
mod draft;
mod draft_rows;
mod event;
mod hands;
mod judging;
mod kept_book;
mod limits;
mod listing;
mod lookup;
mod new_book;
mod order_key;
mod order_rows;
mod rising;
mod shared_book;
mod shared_text;
mod start;
mod turn;
mod withdrawn_rows;
mod writing;

pub use answer::Answer;
pub use checking::BookPlace;
pub use desk::{Desk, DeskCounts, history_laws};
pub use draft::Draft;
pub use event::{Event, Reading};
pub use hands::{Hands, ManyHands, OneHand};
pub use kept_book::KeptBook;
pub use limits::{
    MOST_BOOKS, MOST_DRAFTS, MOST_LISTED, MOST_ORDER_NUMBER, MOST_ORDERS, MOST_REVISION,
};
pub use new_book::NewBook;
pub use order_key::OrderKey;
pub use shared_book::SharedBook;
pub use shared_text::SharedText;
pub use start::{NotStarted, StartFault, row_laws};
