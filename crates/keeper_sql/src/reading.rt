//! Reads all rows of a store.

use crate::stored::Stored;
use crate::tables::form_of;
use keeper::Rows;
use sqlite::{Alter, Connection, Error};
use std::alloc::Global;

/// All rows, in the order of their keys. A store of another form than 2 has no withdrawn numbers.
pub fn load<S: Alter>(alloc: Global, conn: &mut Connection<S>) -> Result<Rows, Error> {
    let form = form_of(conn)?;
    let withdrawn = if form == 2 {
        rows_of(alloc, conn)?
    } else {
        Vec::new(alloc)
    };
    Ok(Rows {
        form,
        drafts: rows_of(alloc, conn)?,
        books: rows_of(alloc, conn)?,
        orders: rows_of(alloc, conn)?,
        withdrawn,
    })
}

// The rows of one table.
fn rows_of<S: Alter, R: Stored>(alloc: Global, conn: &mut Connection<S>) -> Result<Vec<R>, Error> {
    let mut kept = Vec::new(alloc);
    let mut rows = conn.query(R::query(), &[])?;
    for _ in 0..u64::MAX {
        let Some(row) = rows.next()? else {
            return Ok(kept);
        };
        kept.push(R::read(alloc, row)?)?;
    }
    Ok(kept)
}
