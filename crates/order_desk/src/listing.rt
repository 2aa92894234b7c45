//! Lists of books and of orders, as texts.
ghost use Rattle.std.specs.Prelude.{◌≡◌, ◌∷◌, ◌++◌, IfOk, OnOk};
ghost use Rattle.order_desk.specs.Listing.{book_and_day, book_line, book_lines, books_text, last_line, list_text, name_and_term, order_line, withdrawn_word};

use crate::{KeptBook, MOST_LISTED, OrderKey};
use book_model::Book;
use desk_words::OrderWords;
use pb_base::{Body, Memory, Text, put_number};
use std::alloc::Global;
use std::collections::btree_map::Range;

/// The list of all books, by their numbers.
#[tactic(auto, unfolding(crate::specs::Listing::books_text))]
pub(crate) fn books_text(alloc: Global, books: &[KeptBook]) -> Result<Body, Memory>
    ensures { IfOk result (λ text. text ≡ books_text books.now) }
{
    let mut text = Text::new(alloc);
    put_books(&mut text, books)?;
    text.put(b"end\n")?;
    Ok(text.into_body())
}

fn put_books(text: &mut Text, books: &[KeptBook]) -> Result<(), Memory>
    ensures { OnOk result (text.new ≡ text.old ++ book_lines 1 books.now) }
{
    for (place, book) in books.iter().enumerate() {
        put_book(text, place as u64 + 1, book)?;
    }
    Ok(())
}

fn put_book(text: &mut Text, number: u64, book: &KeptBook) -> Result<(), Memory>
    ensures { OnOk result (text.new ≡ text.old ++ book_line number book.now) }
{
    text.put(b"book")?;
    put_number(text, number)?;
    put_word(text, book.draft.bytes())?;
    put_name_and_term(text, book.released.released().book())?;
    text.put(withdrawn_word(book.withdrawn))?;
    text.put(b"\n")
}

fn put_name_and_term(text: &mut Text, book: &Book) -> Result<(), Memory>
    ensures { OnOk result (text.new ≡ text.old ++ name_and_term book.now) }
{
    let term = book.term();
    put_word(text, book.name().bytes())?;
    put_number(text, u64::from(term.first))?;
    put_number(text, u64::from(term.last))
}

// Puts a space and a word behind a text.
fn put_word(text: &mut Text, word: &[u8]) -> Result<(), Memory>
    ensures { OnOk result (text.new ≡ text.old ++ 32 ∷ word.now) }
{
    text.put(b" ")?;
    text.put(word)
}

fn withdrawn_word(withdrawn: bool) -> &'static [u8]
    ensures { result.now ≡ withdrawn_word withdrawn }
{
    if withdrawn { b" withdrawn" } else { b"" }
}

/// The list of the first of these orders, and whether there are further ones.
pub(crate) fn list_text(
    alloc: Global,
    orders: Range<'_, OrderKey, OrderWords>,
) -> Result<Body, Memory>
    ensures { IfOk result (λ text. text ≡ list_text orders.entry) }
{
    let mut text = Text::new(alloc);
    put_orders(&mut text, orders)?;
    Ok(text.into_body())
}

fn put_orders(text: &mut Text, mut orders: Range<'_, OrderKey, OrderWords>) -> Result<(), Memory>
    ensures { OnOk result (text.new ≡ text.old ++ list_text orders.entry) }
{
    for _ in 0..MOST_LISTED {
        match orders.next() {
            Some((key, order)) => put_order(text, key, order)?,
            None => return text.put(b"end\n"),
        }
    }
    text.put(last_line(orders.next().is_some()))?;
    Ok(())
}

fn put_order(text: &mut Text, key: &OrderKey, order: &OrderWords) -> Result<(), Memory>
    ensures { OnOk result (text.new ≡ text.old ++ order_line (key.now, order.now)) }
{
    text.put(b"order")?;
    put_number(text, u64::from(key.number))?;
    put_book_and_day(text, order)?;
    text.put(b"\n")
}

fn put_book_and_day(text: &mut Text, order: &OrderWords) -> Result<(), Memory>
    ensures { OnOk result (text.new ≡ text.old ++ book_and_day order.now) }
{
    text.put(b" book")?;
    put_number(text, u64::from(order.book))?;
    text.put(b" day")?;
    put_number(text, u64::from(order.day))
}

fn last_line(more: bool) -> &'static [u8]
    ensures { result.now ≡ last_line more }
{
    if more { b"more\n" } else { b"end\n" }
}
