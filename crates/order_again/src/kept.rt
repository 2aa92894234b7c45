//! Orders with the books that accepted them.

use desk_words::OrderWords;
use pb_base::Id;
use release::Released;
use std::sync::Arc;

/// An order that was accepted by its own book.
#[derive(Drop)]
pub struct Stock {
    /// Who placed it.
    pub caller: Id,
    /// Its number among the orders of its caller.
    pub number: u32,
    pub order: OrderWords,
    /// The book that accepted it, which its words name by its number.
    pub book: Arc<Released>,
}
