//! The tables of a store.

use crate::stored::number;
use sqlite::{Alter, Connection, Error, ErrorCode, Row};

// The tables of form 2, and the form.
const MAKE: &str = "CREATE TABLE form (number INTEGER PRIMARY KEY NOT NULL) STRICT; \
     CREATE TABLE drafts (name TEXT PRIMARY KEY NOT NULL, owner TEXT NOT NULL, revision INTEGER NOT NULL, \
     body BLOB NOT NULL) STRICT; \
     CREATE TABLE books (number INTEGER PRIMARY KEY NOT NULL, draft TEXT NOT NULL, revision INTEGER NOT NULL, \
     body BLOB NOT NULL, cert BLOB NOT NULL) STRICT; \
     CREATE TABLE orders (caller TEXT NOT NULL, number INTEGER NOT NULL, book INTEGER NOT NULL, \
     day INTEGER NOT NULL, codes TEXT NOT NULL, PRIMARY KEY (caller, number)) STRICT; \
     CREATE TABLE withdrawn (number INTEGER PRIMARY KEY NOT NULL) STRICT; \
     INSERT INTO form VALUES (2)";

// The table that form 1 lacks, and the form.
const MIGRATE: &str =
    "CREATE TABLE withdrawn (number INTEGER PRIMARY KEY NOT NULL) STRICT; UPDATE form SET number = 2";

// How many objects there are, and how many of the tables that every form has.
const COUNT: &str =
    "SELECT count(*), count(CASE WHEN type = 'table' AND name IN ('form', 'drafts', 'books', 'orders') THEN 1 END) \
     FROM sqlite_schema";

// The form, or 0 where there isn't just one.
const FORM: &str = "SELECT CASE WHEN count(*) = 1 THEN max(number) ELSE 0 END FROM form";

/// Makes the tables of form 2 where there is nothing, and leaves every other store as it is. `NotADatabase` says that
/// it is another program's.
pub fn begin<S: Alter>(conn: &mut Connection<S>) -> Result<(), Error> {
    let row = conn.query_row(COUNT, &[])?;
    match counts(&row)? {
        (0, _) => at_once(conn, MAKE),
        (_, 4) => Ok(()),
        _ => Err(Error::SqliteFailure(ErrorCode::NotADatabase)),
    }
}

fn counts(row: &Row) -> Result<(u64, u64), Error> {
    Ok((row.get(0)?, row.get(1)?))
}

/// Turns a store of form 1 into one of form 2, and leaves every other as it is.
pub fn migrate<S: Alter>(conn: &mut Connection<S>) -> Result<(), Error> {
    if form_of(conn)? == 1 {
        at_once(conn, MIGRATE)
    } else {
        Ok(())
    }
}

/// The form of a store, or 0 where it has none or several.
pub fn form_of<S: Alter>(conn: &mut Connection<S>) -> Result<u64, Error> {
    let row = conn.query_row(FORM, &[])?;
    number(&row, 0)
}

// Runs the statements in one transaction, which an error takes back.
fn at_once<S: Alter>(conn: &mut Connection<S>, statements: &str) -> Result<(), Error> {
    if !conn.is_autocommit() {
        return Err(Error::SqliteFailure(ErrorCode::TransactionState));
    }
    let mut transaction = conn.transaction();
    transaction.execute_batch(statements)?;
    transaction.commit()
}
