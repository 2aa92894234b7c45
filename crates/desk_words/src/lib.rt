//! The words in which the order desk is spoken to: calls, replies, and the lines that tell of a fault.
#![tactic(auto)]

mod call;
mod fault_text;
mod order_words;
mod reply;

pub use call::{Call, What};
pub use fault_text::{put_book_fault, put_limit, put_limit_fault, put_order_fault};
pub use order_words::{OrderWords, equal_orders};
pub use reply::{FullOf, Missing, Reply};
