//! A keeper over a real file.

use crate::sql_row::{book, draft, is_book, is_draft, is_order, number, order};
use keeper::{BookRow, DraftRow, Keeper, OrderRow, Rows};
use keeper_sql::FileKeeper;
use pb_outside::OutError;
use std::alloc::Global;
use std::fs;
use std::process::Abort;
use std::test::Fail;

const FOLDER: &str = "store_test";

const STORE: &str = "store_test/s.db";

const LOG: &str = "store_test/s.db-wal";

const NOTE: &str = "store_test/note";

// A keeper that is made, begun and closed by itself, so that all else is proved over any keeper.
trait Held: Keeper {
    fn fresh(rt: HostRuntime) -> Self;

    fn begin_store(&mut self, name: &str) -> Result<(), OutError>;

    fn close_store(self) -> bool;
}

impl Held for FileKeeper {
    fn fresh(rt: HostRuntime) -> FileKeeper {
        FileKeeper::new(rt)
    }

    fn begin_store(&mut self, name: &str) -> Result<(), OutError> {
        self.begin(name)
    }

    fn close_store(self) -> bool {
        self.close()
    }
}

fn put_draft<K: Keeper>(
    keeper: &mut K,
    alloc: Global,
    digit: u8,
    says: u8,
) -> Result<(), OutError> {
    keeper.put_draft(&draft(alloc, digit, says)?)
}

fn put_book<K: Keeper>(keeper: &mut K, alloc: Global, digit: u8, says: u8) -> Result<(), OutError> {
    keeper.put_book(&book(alloc, digit, says)?)
}

fn put_order<K: Keeper>(
    keeper: &mut K,
    alloc: Global,
    digit: u8,
    says: u8,
) -> Result<(), OutError> {
    keeper.put_order(&order(alloc, digit, says)?)
}

// A row of each kind.
fn put_row<K: Keeper>(keeper: &mut K, alloc: Global, digit: u8, says: u8) -> Result<(), OutError> {
    put_draft(keeper, alloc, digit, says)?;
    put_book(keeper, alloc, digit, says)?;
    put_order(keeper, alloc, digit, says)?;
    keeper.put_withdrawn(number(digit))
}

// Each key is put twice, and each other field of its row changes.
fn put_rows<K: Keeper>(keeper: &mut K, alloc: Global) -> Result<(), OutError> {
    put_row(keeper, alloc, b'2', b'a')?;
    put_row(keeper, alloc, b'1', b'b')?;
    put_row(keeper, alloc, b'2', b'c')?;
    put_row(keeper, alloc, b'1', b'd')
}

fn are_drafts(rows: &[DraftRow]) -> bool {
    matches!(rows, [first, second] if is_draft(first, b'1', b'd') && is_draft(second, b'2', b'c'))
}

fn are_books(rows: &[BookRow]) -> bool {
    matches!(rows, [first, second] if is_book(first, b'1', b'd') && is_book(second, b'2', b'c'))
}

fn are_orders(rows: &[OrderRow]) -> bool {
    matches!(rows, [first, second] if is_order(first, b'1', b'd') && is_order(second, b'2', b'c'))
}

fn are_rows(rows: &Rows) -> bool {
    rows.form == 2
        && are_drafts(&rows.drafts)
        && are_books(&rows.books)
        && are_orders(&rows.orders)
        && rows.withdrawn.as_slice() == [1, 2].as_slice()
}

// A store of form 2 is left by `migrate` as it is.
fn begin_and_put<K: Held>(keeper: &mut K, alloc: Global) -> Result<(), OutError> {
    keeper.begin_store(STORE)?;
    put_rows(keeper, alloc)?;
    keeper.migrate()
}

// The next keeper finds the rows that were put last.
fn finds<K: Held>(keeper: &mut K) -> Result<bool, OutError> {
    keeper.begin_store(STORE)?;
    let rows = keeper.load()?;
    Ok(are_rows(&rows))
}

// Whether a keeper is refused by what is there, and counts that.
fn is_refused<K: Held>(host: HostRuntime, name: &str) -> bool {
    let mut keeper = K::fresh(host);
    let is_failed = matches!(keeper.begin_store(name), Err(OutError::Failed));
    let is_counted = keeper.faults() == 1;
    keeper.close_store() && is_failed && is_counted
}

// Puts the rows. While a keeper holds the store, no other one gets it.
fn put_by_one<K: Held>(host: HostRuntime) -> Result<bool, OutError> {
    let mut keeper = K::fresh(host);
    let kept = begin_and_put(&mut keeper, host.alloc());
    let is_alone = is_refused::<K>(host, STORE);
    let is_closed = keeper.close_store();
    kept?;
    Ok(is_alone && is_closed)
}

fn found_by_next<K: Held>(host: HostRuntime) -> Result<bool, OutError> {
    let mut keeper = K::fresh(host);
    let found = finds(&mut keeper);
    let is_closed = keeper.close_store();
    Ok(found? && is_closed)
}

fn is_there(host: HostRuntime, name: &str) -> bool {
    fs::read(&host, name).is_ok()
}

// One keeper behind the other over one store. Each leaves one file.
fn keeps<K: Held>(rt: &impl Abort, host: HostRuntime) -> Result<(), Fail> {
    assert!(rt; put_by_one::<K>(host)?);
    assert!(rt; !is_there(host, LOG));
    assert!(rt; found_by_next::<K>(host)?);
    assert!(rt; !is_there(host, LOG));
    Ok(())
}

fn refuses_a_note<K: Held>(rt: &impl Abort, host: HostRuntime) -> Result<(), Fail> {
    fs::write(&host, NOTE, b"no database")?;
    assert!(rt; is_refused::<K>(host, NOTE));
    assert_eq!(rt;
        fs::read(&host, NOTE)?.as_slice(),
        b"no database".as_slice()
    );
    Ok(())
}

fn tried<K: Held>(rt: &impl Abort, host: HostRuntime) -> Result<(), Fail> {
    let _ = fs::remove_dir_all(&host, FOLDER);
    fs::create_dir(&host, FOLDER)?;
    keeps::<K>(rt, host)?;
    refuses_a_note::<K>(rt, host)?;
    fs::remove_dir_all(&host, FOLDER)?;
    Ok(())
}

#[test]
fn a_file_keeps_the_rows(rt: HostRuntime) -> Result<(), Fail> {
    tried::<FileKeeper>(&rt, rt)
}
