//! A store whose orders are counted.

use keeper::{BookRow, DraftRow, Keeper, OrderRow, Rows};
use pb_outside::OutError;
use std::sync::atomic::{AtomicU64, Ordering};

/// A store, and where each order that it keeps is counted, for who looks on from outside. As a keeper it is the store alone:
/// it tells what that tells, and makes each call of that once.
#[derive(Drop)]
pub struct Counted<'a, K> {
    pub store: K,
    pub orders: &'a AtomicU64,
}

impl<K: Keeper> Keeper for Counted<'_, K> {
    ghost told = { λ c. K.told c.store };

    ghost failures = { λ c. K.failures c.store };

    ghost calls = { λ c. K.calls c.store };

    ghost may_begin = { λ c. K.may_begin c.store };

    fn begin(&mut self, name: &str) -> Result<(), OutError> {
        self.store.begin(name)
    }

    fn load(&mut self) -> Result<Rows, OutError> {
        self.store.load()
    }

    fn put_draft(&mut self, row: &DraftRow) -> Result<(), OutError> {
        self.store.put_draft(row)
    }

    fn put_book(&mut self, row: &BookRow) -> Result<(), OutError> {
        self.store.put_book(row)
    }

    fn put_order(&mut self, row: &OrderRow) -> Result<(), OutError> {
        self.store.put_order(row)?;
        self.orders.fetch_add(1, Ordering::SeqCst);
        Ok(())
    }

    fn put_withdrawn(&mut self, number: u64) -> Result<(), OutError> {
        self.store.put_withdrawn(number)
    }

    fn migrate(&mut self) -> Result<(), OutError> {
        self.store.migrate()
    }

    fn faults(&self) -> u64 {
        self.store.faults()
    }
}
