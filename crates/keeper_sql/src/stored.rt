//! How rows stand in their tables.

use keeper::{BookRow, DraftRow, OrderRow};
use pb_base::Body;
use sqlite::types::Type;
use sqlite::{Error, Row};
use sqlite_value::value::ValueRef;
use std::alloc::Global;

/// A row that has a table.
pub(crate) trait Stored: Drop {
    /// The query of all rows, in the order of their keys, texts by their bytes.
    fn query() -> &'static str;

    /// The row of an answer to it.
    fn read(alloc: Global, row: &Row) -> Result<Self, Error>;
}

impl Stored for DraftRow {
    fn query() -> &'static str {
        "SELECT name, owner, revision, body FROM drafts ORDER BY name"
    }

    fn read(alloc: Global, row: &Row) -> Result<DraftRow, Error> {
        Ok(DraftRow {
            name: body(alloc, row, 0)?,
            owner: body(alloc, row, 1)?,
            revision: number(row, 2)?,
            text: body(alloc, row, 3)?,
        })
    }
}

impl Stored for BookRow {
    fn query() -> &'static str {
        "SELECT number, draft, revision, body, cert FROM books ORDER BY number"
    }

    fn read(alloc: Global, row: &Row) -> Result<BookRow, Error> {
        Ok(BookRow {
            number: number(row, 0)?,
            draft: body(alloc, row, 1)?,
            revision: number(row, 2)?,
            text: body(alloc, row, 3)?,
            cert: body(alloc, row, 4)?,
        })
    }
}

impl Stored for OrderRow {
    fn query() -> &'static str {
        "SELECT caller, number, book, day, codes FROM orders ORDER BY caller, number"
    }

    fn read(alloc: Global, row: &Row) -> Result<OrderRow, Error> {
        Ok(OrderRow {
            caller: body(alloc, row, 0)?,
            number: number(row, 1)?,
            book: number(row, 2)?,
            day: number(row, 3)?,
            codes: body(alloc, row, 4)?,
        })
    }
}

// The number of a withdrawn book.
impl Stored for u64 {
    fn query() -> &'static str {
        "SELECT number FROM withdrawn ORDER BY number"
    }

    fn read(_: Global, row: &Row) -> Result<u64, Error> {
        number(row, 0)
    }
}

/// The number in a column. A negative one is no number of any row, and is given as 2^64 - 1.
pub(crate) fn number(row: &Row, column: usize) -> Result<u64, Error> {
    let number: i64 = row.get(column)?;
    Ok(u64::try_from(number).unwrap_or(u64::MAX))
}

// The bytes of a text or a blob.
fn body(alloc: Global, row: &Row, column: usize) -> Result<Body, Error> {
    match row.get_ref(column)? {
        ValueRef::Text(bytes) | ValueRef::Blob(bytes) => Ok(Body::of(bytes.to_vec(alloc)?)),
        other => Err(Error::InvalidColumnType(column, Type::of(other))),
    }
}
