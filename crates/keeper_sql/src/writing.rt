//! Writes one row of a store. Each is one statement, so it is a transaction of its own.

use keeper::{BookRow, DraftRow, OrderRow};
use pb_base::Body;
use sqlite::{Alter, Connection, Error};
use sqlite_value::value::ValueRef;

/// Sets the draft of this name.
pub fn put_draft<S: Alter>(conn: &mut Connection<S>, row: &DraftRow) -> Result<(), Error> {
    let values = [
        text(&row.name),
        text(&row.owner),
        number(row.revision)?,
        blob(&row.text),
    ];
    write(
        conn,
        "INSERT INTO drafts VALUES (?1, ?2, ?3, ?4) ON CONFLICT (name) DO UPDATE \
         SET owner = excluded.owner, revision = excluded.revision, body = excluded.body",
        &values,
    )
}

/// Sets the book of this number.
pub fn put_book<S: Alter>(conn: &mut Connection<S>, row: &BookRow) -> Result<(), Error> {
    let values = [
        number(row.number)?,
        text(&row.draft),
        number(row.revision)?,
        blob(&row.text),
        blob(&row.cert),
    ];
    write(
        conn,
        "INSERT INTO books VALUES (?1, ?2, ?3, ?4, ?5) ON CONFLICT (number) DO UPDATE \
         SET draft = excluded.draft, revision = excluded.revision, body = excluded.body, cert = excluded.cert",
        &values,
    )
}

/// Sets the order of this caller and number.
pub fn put_order<S: Alter>(conn: &mut Connection<S>, row: &OrderRow) -> Result<(), Error> {
    let values = [
        text(&row.caller),
        number(row.number)?,
        number(row.book)?,
        number(row.day)?,
        text(&row.codes),
    ];
    write(
        conn,
        "INSERT INTO orders VALUES (?1, ?2, ?3, ?4, ?5) ON CONFLICT (caller, number) DO UPDATE \
         SET book = excluded.book, day = excluded.day, codes = excluded.codes",
        &values,
    )
}

/// Adds the number of a withdrawn book, where it is not there.
pub fn put_withdrawn<S: Alter>(conn: &mut Connection<S>, book: u64) -> Result<(), Error> {
    write(
        conn,
        "INSERT INTO withdrawn VALUES (?1) ON CONFLICT (number) DO NOTHING",
        &[number(book)?],
    )
}

fn write<S: Alter>(
    conn: &mut Connection<S>,
    statement: &str,
    values: &[ValueRef<'_>],
) -> Result<(), Error> {
    conn.execute(statement, values)?;
    Ok(())
}

// SQLite's numbers end at 2^63 - 1, which no right row comes near.
fn number<'a>(number: u64) -> Result<ValueRef<'a>, Error> {
    match i64::try_from(number) {
        Ok(number) => Ok(ValueRef::Int(number)),
        Err(_) => Err(Error::IntegralValueOutOfRange(0)),
    }
}

fn text(body: &Body) -> ValueRef<'_> {
    ValueRef::Text(body.as_slice())
}

fn blob(body: &Body) -> ValueRef<'_> {
    ValueRef::Blob(body.as_slice())
}
