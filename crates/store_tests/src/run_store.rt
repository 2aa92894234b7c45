//! The store of a run: what is put through it is there for the next run, in a file of the kind that its name says.

use crate::sql_row::{is_order, order};
use file_store::{Counted, close, store_at};
use keeper::{Keeper, Rows};
use std::fs;
use std::sync::atomic::{AtomicU64, Ordering};
use std::test::Fail;

// Keeps one order and one withdrawal, and closes the store. Whether that went well and one order was counted.
fn keeps_rows(rt: HostRuntime, name: &str) -> Result<bool, Fail> {
    let orders = AtomicU64::new(0);
    let mut store = Counted {
        store: store_at(rt, name),
        orders: &orders,
    };
    store.begin(name)?;
    store.put_order(&order(rt.alloc(), b'1', b'a')?)?;
    store.put_withdrawn(1)?;
    Ok(close(store.store) && orders.load(Ordering::SeqCst) == 1)
}

// The rows that the next run finds.
fn next_rows(rt: HostRuntime, name: &str) -> Result<Rows, Fail> {
    let mut store = store_at(rt, name);
    store.begin(name)?;
    let rows = store.load()?;
    let _closed = close(store);
    Ok(rows)
}

// Whether these are the rows that were kept.
fn are_kept(rows: &Rows) -> bool {
    matches!(rows.orders.as_slice(), [kept] if is_order(kept, b'1', b'a'))
        && rows.withdrawn.as_slice() == [1].as_slice()
}

#[test]
fn what_is_put_is_there_for_the_next_run(rt: HostRuntime) -> Result<(), Fail> {
    let _ = fs::remove_dir_all(&rt, "run_store");
    fs::create_dir(&rt, "run_store")?;
    assert!(rt; keeps_rows(rt, "run_store/s.journal")?);
    assert!(rt; are_kept(&next_rows(rt, "run_store/s.journal")?));
    assert!(rt; keeps_rows(rt, "run_store/s.db")?);
    assert!(rt; are_kept(&next_rows(rt, "run_store/s.db")?));
    assert!(rt; fs::read(&rt, "run_store/s.journal")?.starts_with(b"\x01PBJOURN"));
    assert!(rt; fs::read(&rt, "run_store/s.db")?.starts_with(b"SQLite format 3"));
    fs::remove_dir_all(&rt, "run_store")?;
    Ok(())
}
