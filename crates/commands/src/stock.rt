//! What a desk keeps of orders, each with the book that accepted it.
ghost use Rattle.std.specs.Prelude.{All, IfOk};
ghost use Rattle.order_again.specs.Again.{IsAccepted};
ghost use Rattle.commands.specs.Rejudged.{AreStock, IsStock};

use desk_words::OrderWords;
use keeper::Keeper;
use order_again::Stock;
use order_desk::{Desk, OrderKey};
use pb_base::Memory;
use release::Released;
use std::alloc::Global;
use std::sync::Arc;

/// All orders that a desk keeps, in the order of callers and numbers, each with its own book.
pub(crate) fn stock_of<P: Keeper>(alloc: Global, desk: &Desk<P>) -> Result<Vec<Stock>, Memory>
    ensures stock { let t = desk.now.tables in
        IfOk result (λ stock. AreStock t.books t.orders stock.items) }
    ensures accepted { IfOk result (λ stock. All IsAccepted stock.items) }
{
    let mut stock = Vec::new(alloc);
    for (key, order) in desk.orders() {
        match desk.book_at(order.book) {
            Some(book) => stock.push(stocked(alloc, key, order, book)?)?,
            None => unreachable!(),
        }
    }
    Ok(stock)
}

fn stocked(
    alloc: Global,
    key: &OrderKey,
    order: &OrderWords,
    book: &Arc<Released>,
) -> Result<Stock, Memory>
    ensures { IfOk result (λ s. IsStock book.now.value key.now order.now s) }
{
    Ok(Stock {
        caller: key.caller,
        number: key.number,
        order: order.copy(alloc)?,
        book: book.clone()?,
    })
}
