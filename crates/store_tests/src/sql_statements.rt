//! What the statements make of a database.

use crate::sql_row::{draft, order};
use keeper::OrderRow;
use keeper_sql::{begin, load, migrate, put_draft, put_order, put_withdrawn};
use sqlite::{Alter, Connection, Error};
use std::alloc::Global;
use std::process::Abort;
use std::test::Fail;

fn batch<S: Alter>(conn: &mut Connection<S>, statements: &str) -> Result<(), Error> {
    conn.execute_batch(statements)
}

fn put_one_draft<S: Alter>(alloc: Global, conn: &mut Connection<S>) -> Result<(), Error> {
    put_draft(conn, &draft(alloc, b'1', b'a')?)
}

// The store is of this form, and has so many drafts and these withdrawn books.
fn holds<S: Alter>(
    rt: &impl Abort,
    alloc: Global,
    conn: &mut Connection<S>,
    form: u64,
    drafts: usize,
    withdrawn: &[u64],
) -> Result<(), Error> {
    let rows = load(alloc, conn)?;
    assert_eq!(rt; (rows.form, rows.drafts.len()), (form, drafts));
    assert_eq!(rt; rows.withdrawn.as_slice(), withdrawn);
    Ok(())
}

fn becomes_form_2<S: Alter>(
    rt: &impl Abort,
    alloc: Global,
    conn: &mut Connection<S>,
) -> Result<(), Error> {
    begin(conn)?;
    put_one_draft(alloc, conn)?;
    // The table of withdrawn books is there, so it can't be made, and the form stays.
    batch(conn, "UPDATE form SET number = 1")?;
    assert!(rt; migrate(conn).is_err());
    batch(conn, "DROP TABLE withdrawn")?;
    begin(conn)?;
    holds(rt, alloc, conn, 1, 1, &[])?;
    migrate(conn)?;
    put_withdrawn(conn, 7)?;
    migrate(conn)?;
    holds(rt, alloc, conn, 2, 1, &[7])
}

#[test]
fn a_store_of_form_1_becomes_one_of_form_2(rt: HostRuntime) -> Result<(), Fail> {
    let alloc = rt.alloc();
    let mut conn = Connection::open_in_memory(alloc)?;
    let done = becomes_form_2(&rt, alloc, &mut conn);
    drop(conn);
    Ok(done?)
}

fn refuses_what_is_no_row<S: Alter>(
    rt: &impl Abort,
    alloc: Global,
    conn: &mut Connection<S>,
) -> Result<(), Error> {
    batch(conn, "CREATE TABLE note (id INTEGER PRIMARY KEY) STRICT")?;
    assert!(rt; begin(conn).is_err());
    assert!(rt; load(alloc, conn).is_err());
    batch(conn, "DROP TABLE note")?;
    begin(conn)?;
    assert!(rt; put_withdrawn(conn, 1 << 63).is_err());
    batch(
        conn,
        "INSERT INTO withdrawn VALUES (-1); INSERT INTO form VALUES (1)",
    )?;
    holds(rt, alloc, conn, 0, 0, &[])?;
    batch(conn, "DELETE FROM form WHERE number = 1")?;
    holds(rt, alloc, conn, 2, 0, &[u64::MAX])
}

#[test]
fn what_is_no_row_is_refused_or_shown(rt: HostRuntime) -> Result<(), Fail> {
    let alloc = rt.alloc();
    let mut conn = Connection::open_in_memory(alloc)?;
    let done = refuses_what_is_no_row(&rt, alloc, &mut conn);
    drop(conn);
    Ok(done?)
}

// An order of this caller under this number.
fn put_order_of<S: Alter>(
    alloc: Global,
    conn: &mut Connection<S>,
    caller: u8,
    number: u64,
) -> Result<(), Error> {
    let mut row = order(alloc, caller, b'a')?;
    row.number = number;
    put_order(conn, &row)
}

// Whether the next order is of this caller and number.
fn is_of(row: &OrderRow, caller: u8, number: u64) -> bool {
    row.caller.as_slice() == [b'H', caller].as_slice() && row.number == number
}

// Their numbers alone would give another sequence, and so would the callers alone.
fn sorts_orders<S: Alter>(
    rt: &impl Abort,
    alloc: Global,
    conn: &mut Connection<S>,
) -> Result<(), Error> {
    begin(conn)?;
    put_order_of(alloc, conn, b'1', 2)?;
    put_order_of(alloc, conn, b'2', 1)?;
    put_order_of(alloc, conn, b'1', 1)?;
    let rows = load(alloc, conn)?;
    let are_sorted = matches!(rows.orders.as_slice(), [first, second, third]
        if is_of(first, b'1', 1) && is_of(second, b'1', 2) && is_of(third, b'2', 1));
    assert!(rt; are_sorted);
    Ok(())
}

#[test]
fn orders_come_by_their_callers_and_then_by_their_numbers(rt: HostRuntime) -> Result<(), Fail> {
    let alloc = rt.alloc();
    let mut conn = Connection::open_in_memory(alloc)?;
    let done = sorts_orders(&rt, alloc, &mut conn);
    drop(conn);
    Ok(done?)
}

// Whether a load that may take so many steps gives all nine numbers, where it gives any.
fn is_whole<S: Alter>(
    rt: &impl Abort,
    alloc: Global,
    conn: &mut Connection<S>,
    steps: u64,
) -> bool {
    conn.set_step_limit(Some(steps));
    match load(alloc, conn) {
        Ok(rows) => {
            assert_eq!(rt; rows.withdrawn.len(), 9, "{steps}");
            true
        }
        Err(_) => false,
    }
}

fn tells_a_read_that_ends_early<S: Alter>(
    rt: &impl Abort,
    alloc: Global,
    conn: &mut Connection<S>,
) -> Result<(), Error> {
    begin(conn)?;
    for number in 1..10 {
        put_withdrawn(conn, number)?;
    }
    for steps in 0..40 {
        let _is_whole = is_whole(rt, alloc, conn, steps);
    }
    assert!(rt; !is_whole(rt, alloc, conn, 1));
    assert!(rt; is_whole(rt, alloc, conn, 1000));
    Ok(())
}

#[test]
fn a_read_that_fails_in_a_table_is_no_end_of_it(rt: HostRuntime) -> Result<(), Fail> {
    let alloc = rt.alloc();
    let mut conn = Connection::open_in_memory(alloc)?;
    let done = tells_a_read_that_ends_early(&rt, alloc, &mut conn);
    drop(conn);
    Ok(done?)
}
