//! The rows of a store, as a case says them.

use crate::line::put_line;
use crate::named_text::{NamedText, text_of};
use crate::note_line::put_numbers;
use crate::said::{cut, number_in};
use keeper::{BookRow, DraftRow, Keeper, MemoryKeeper, OrderRow, Rows};
use pb_base::{Body, Memory, Text};
use pb_outside::OutError;
use std::alloc::Global;

/// A row of a store, or its form. Texts are named.
#[derive(Clone, Copy)]
pub enum Row<'a> {
    Form(u64),
    Draft {
        name: &'a str,
        owner: &'a str,
        revision: u64,
        text: &'a str,
    },
    /// A draft for each number of a range, without a text: its name is `D` and the number in four digits.
    Drafts {
        from: u64,
        until: u64,
        owner: &'a str,
    },
    Book {
        number: u64,
        draft: &'a str,
        revision: u64,
        text: &'a str,
        cert: &'a str,
    },
    Order {
        caller: &'a str,
        number: u64,
        book: u64,
        day: u64,
        codes: &'a str,
    },
    Withdrawn(u64),
}

/// The row of a head, or None where the head says none.
pub fn row_in<'a>(key: &str, rest: &'a str) -> Option<Row<'a>> {
    match key {
        "form" => Some(Row::Form(number_in(rest)?)),
        "draft_row" => draft_in(rest),
        "draft_rows" => drafts_in(rest),
        "book_row" => book_in(rest),
        "order_row" => order_in(rest),
        "withdrawn_row" => Some(Row::Withdrawn(number_in(rest)?)),
        _ => None,
    }
}

fn draft_in(rest: &str) -> Option<Row<'_>> {
    let (name, rest) = cut(rest);
    let (owner, rest) = cut(rest);
    let (revision, text) = cut(rest);
    Some(Row::Draft {
        name,
        owner,
        revision: number_in(revision)?,
        text,
    })
}

fn drafts_in(rest: &str) -> Option<Row<'_>> {
    let (from, rest) = cut(rest);
    let (until, owner) = cut(rest);
    Some(Row::Drafts {
        from: number_in(from)?,
        until: number_in(until)?,
        owner,
    })
}

fn book_in(rest: &str) -> Option<Row<'_>> {
    let (number, rest) = cut(rest);
    let (draft, rest) = cut(rest);
    let (revision, rest) = cut(rest);
    let (text, cert) = cut(rest);
    Some(Row::Book {
        number: number_in(number)?,
        draft,
        revision: number_in(revision)?,
        text,
        cert,
    })
}

fn order_in(rest: &str) -> Option<Row<'_>> {
    let (caller, rest) = cut(rest);
    let (number, rest) = cut(rest);
    let (book, rest) = cut(rest);
    let (day, codes) = cut(rest);
    Some(Row::Order {
        caller,
        number: number_in(number)?,
        book: number_in(book)?,
        day: number_in(day)?,
        codes,
    })
}

/// The rows of an empty store.
pub fn no_rows(alloc: Global) -> Rows {
    Rows {
        form: 0,
        drafts: Vec::new(alloc),
        books: Vec::new(alloc),
        orders: Vec::new(alloc),
        withdrawn: Vec::new(alloc),
    }
}

/// Puts a row behind those of its table.
pub fn put_row(
    alloc: Global,
    rows: &mut Rows,
    row: &Row<'_>,
    texts: &[NamedText<'_>],
) -> Result<(), Memory> {
    match row {
        Row::Form(form) => {
            rows.form = *form;
            Ok(())
        }
        Row::Draft {
            name,
            owner,
            revision,
            text,
        } => {
            let text = text_of(texts, text);
            put_draft(alloc, &mut rows.drafts, name, owner, *revision, text)
        }
        Row::Drafts { from, until, owner } => {
            put_drafts(alloc, &mut rows.drafts, *from, *until, owner)
        }
        Row::Book {
            number,
            draft,
            revision,
            text,
            cert,
        } => {
            let text = text_of(texts, text);
            let cert = text_of(texts, cert);
            put_book(
                alloc,
                &mut rows.books,
                *number,
                draft,
                *revision,
                text,
                cert,
            )
        }
        Row::Order {
            caller,
            number,
            book,
            day,
            codes,
        } => put_order(alloc, &mut rows.orders, caller, *number, *book, *day, codes),
        Row::Withdrawn(number) => Ok(rows.withdrawn.push(*number)?),
    }
}

fn put_draft(
    alloc: Global,
    drafts: &mut Vec<DraftRow>,
    name: &str,
    owner: &str,
    revision: u64,
    text: &[u8],
) -> Result<(), Memory> {
    let row = draft_row(alloc, name.as_bytes(), owner, revision, text)?;
    Ok(drafts.push(row)?)
}

fn put_drafts(
    alloc: Global,
    drafts: &mut Vec<DraftRow>,
    from: u64,
    until: u64,
    owner: &str,
) -> Result<(), Memory> {
    for number in from..until {
        drafts.push(numbered_row(alloc, number, owner)?)?;
    }
    Ok(())
}

fn numbered_row(alloc: Global, number: u64, owner: &str) -> Result<DraftRow, Memory> {
    let name = draft_name(alloc, number)?;
    draft_row(alloc, name.bytes(), owner, 1, b"")
}

fn draft_row(
    alloc: Global,
    name: &[u8],
    owner: &str,
    revision: u64,
    text: &[u8],
) -> Result<DraftRow, Memory> {
    Ok(DraftRow {
        name: body_of(alloc, name)?,
        owner: body_of(alloc, owner.as_bytes())?,
        revision,
        text: body_of(alloc, text)?,
    })
}

fn put_book(
    alloc: Global,
    books: &mut Vec<BookRow>,
    number: u64,
    draft: &str,
    revision: u64,
    text: &[u8],
    cert: &[u8],
) -> Result<(), Memory> {
    let row = BookRow {
        number,
        draft: body_of(alloc, draft.as_bytes())?,
        revision,
        text: body_of(alloc, text)?,
        cert: body_of(alloc, cert)?,
    };
    Ok(books.push(row)?)
}

fn put_order(
    alloc: Global,
    orders: &mut Vec<OrderRow>,
    caller: &str,
    number: u64,
    book: u64,
    day: u64,
    codes: &str,
) -> Result<(), Memory> {
    let row = OrderRow {
        caller: body_of(alloc, caller.as_bytes())?,
        number,
        book,
        day,
        codes: body_of(alloc, codes.as_bytes())?,
    };
    Ok(orders.push(row)?)
}

fn draft_name(alloc: Global, number: u64) -> Result<Text, Memory> {
    let mut name = Text::new(alloc);
    name.put(b"D")?;
    for unit in [1000u64, 100, 10, 1] {
        name.put_number(number / unit % 10)?;
    }
    Ok(name)
}

fn body_of(alloc: Global, bytes: &[u8]) -> Result<Body, Memory> {
    Ok(Body::of(bytes.to_vec(alloc)?))
}

/// The rows of a keeper in memory, or those of an empty store where it can't be read.
pub fn rows_of(alloc: Global, keeper: &mut MemoryKeeper) -> Result<Rows, Memory> {
    match keeper.load() {
        Ok(rows) => Ok(rows),
        Err(OutError::Failed) => Ok(no_rows(alloc)),
        Err(OutError::Memory) => Err(Memory),
    }
}

/// Puts all that the rows of a store have behind a text.
pub fn put_all_rows(text: &mut Text, rows: &Rows) -> Result<(), Memory> {
    put_rows_line(text, rows)?;
    for draft in &rows.drafts {
        put_draft_row(text, draft)?;
    }
    for book in &rows.books {
        put_book_row(text, book)?;
    }
    for order in &rows.orders {
        put_order_row(text, order)?;
    }
    for number in &rows.withdrawn {
        put_numbers(text, "withdrawn", &[*number])?;
    }
    Ok(())
}

fn put_draft_row(text: &mut Text, row: &DraftRow) -> Result<(), Memory> {
    put_numbers(text, "draft", &[row.revision])?;
    put_line(text, row.name.as_slice())?;
    put_line(text, row.owner.as_slice())?;
    put_line(text, row.text.as_slice())
}

fn put_book_row(text: &mut Text, row: &BookRow) -> Result<(), Memory> {
    put_numbers(text, "book", &[row.number, row.revision])?;
    put_line(text, row.draft.as_slice())?;
    put_line(text, row.text.as_slice())?;
    put_line(text, row.cert.as_slice())
}

fn put_order_row(text: &mut Text, row: &OrderRow) -> Result<(), Memory> {
    put_numbers(text, "order", &[row.number, row.book, row.day])?;
    put_line(text, row.caller.as_slice())?;
    put_line(text, row.codes.as_slice())
}

/// Puts a line with the form of a store and how many rows each table has, where it has a form.
pub fn put_rows_line(text: &mut Text, rows: &Rows) -> Result<(), Memory> {
    if rows.form == 0 {
        return Ok(());
    }
    text.put(b"rows form ")?;
    text.put_number(rows.form)?;
    for (name, count) in [
        (" drafts ", rows.drafts.len()),
        (" books ", rows.books.len()),
        (" orders ", rows.orders.len()),
        (" withdrawn ", rows.withdrawn.len()),
    ] {
        text.put(name.as_bytes())?;
        text.put_number(count as u64)?;
    }
    text.put(b"\n")
}
