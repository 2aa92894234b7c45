//! The lines that tell what kept orders come to by another book.
ghost use Rattle.std.specs.Prelude.{◌≡◌, ◌++◌, IfOk, OnOk, length};
ghost use Rattle.order_again.specs.StockText.{again_text, stock_line, lines_from, stock_text};

use crate::kept::Stock;
use crate::outcome::Again;
use book_model::Book;
use desk_words::put_order_fault;
use order_text::put_refused;
use pb_base::{Body, Memory, Text, put_number};
use std::alloc::Global;

/// A line for each order, its caller, its number and `same`, `other`, `refused RULE` or the order's fault, and at the end `end`
/// and the number of orders. Rules are those of the book by which the orders were judged again.
pub fn stock_text(alloc: Global, to: &Book, stock: &[Stock], told: &[Again]) -> Result<Body, Memory>
    requires { length told.now ≡ length stock.now }
    ensures { IfOk result (λ text. text ≡ stock_text to.now stock.now told.now) }
{
    let mut text = Text::new(alloc);
    put_lines(&mut text, to, stock, told)?;
    text.put(b"end")?;
    put_number(&mut text, stock.len() as u64)?;
    text.put(b"\n")?;
    Ok(text.into_body())
}

/// Puts the line of each order behind a text.
pub(crate) fn put_lines(
    text: &mut Text,
    to: &Book,
    stock: &[Stock],
    told: &[Again],
) -> Result<(), Memory>
    requires { length told.now ≡ length stock.now }
    ensures { OnOk result (text.new ≡ text.old ++ lines_from to.now stock.now told.now) }
{
    for (place, one) in stock.iter().enumerate() {
        put_line(text, to, one, told[place])?;
    }
    Ok(())
}

fn put_line(text: &mut Text, to: &Book, stock: &Stock, again: Again) -> Result<(), Memory>
    ensures { OnOk result (text.new ≡ text.old ++ stock_line to.now stock.now again) }
{
    text.put(stock.caller.bytes())?;
    put_number(text, u64::from(stock.number))?;
    text.put(b" ")?;
    put_again(text, to, again)
}

fn put_again(text: &mut Text, to: &Book, again: Again) -> Result<(), Memory>
    ensures { OnOk result (text.new ≡ text.old ++ again_text to.now again) }
{
    match again {
        Again::Same => text.put(b"same\n"),
        Again::Other => text.put(b"other\n"),
        Again::Refused(rule) => put_refused(text, to, rule),
        Again::Fault(fault) => put_order_fault(text, &fault),
    }
}
