//! A store of one of two kinds.
ghost use Rattle.keeper.specs.Counting.{fallible};

use keeper::{BookRow, DraftRow, Keeper, OrderRow, Rows};
use pb_outside::OutError;

/// The keeper of a store, so that a run is made once for both kinds. As a keeper it is the one that it holds: it tells what
/// that tells, makes each call of that once, and begins by a name of its own kind alone. Where it holds none, each call
/// but `faults` is answered want of memory.
#[derive(Drop)]
pub enum Store<D, J> {
    Unopened,
    Database(D),
    Journal(J),
}

impl<D: Keeper, J: Keeper> Keeper for Store<D, J> {
    ghost use Rattle.file_store.specs.Store.{may_begin_kind, of_kind};
    ghost use Rattle.std.specs.Prelude.{None};

    ghost told = { of_kind None D.told J.told };

    ghost failures = { of_kind (fallible 0) D.failures J.failures };

    ghost calls = { of_kind None D.calls J.calls };

    ghost may_begin = { may_begin_kind D.may_begin J.may_begin };

    fn begin(&mut self, name: &str) -> Result<(), OutError> {
        match self {
            Store::Unopened => Err(OutError::Memory),
            Store::Database(keeper) => keeper.begin(name),
            Store::Journal(keeper) => keeper.begin(name),
        }
    }

    fn load(&mut self) -> Result<Rows, OutError> {
        match self {
            Store::Unopened => Err(OutError::Memory),
            Store::Database(keeper) => keeper.load(),
            Store::Journal(keeper) => keeper.load(),
        }
    }

    fn put_draft(&mut self, row: &DraftRow) -> Result<(), OutError> {
        match self {
            Store::Unopened => Err(OutError::Memory),
            Store::Database(keeper) => keeper.put_draft(row),
            Store::Journal(keeper) => keeper.put_draft(row),
        }
    }

    fn put_book(&mut self, row: &BookRow) -> Result<(), OutError> {
        match self {
            Store::Unopened => Err(OutError::Memory),
            Store::Database(keeper) => keeper.put_book(row),
            Store::Journal(keeper) => keeper.put_book(row),
        }
    }

    fn put_order(&mut self, row: &OrderRow) -> Result<(), OutError> {
        match self {
            Store::Unopened => Err(OutError::Memory),
            Store::Database(keeper) => keeper.put_order(row),
            Store::Journal(keeper) => keeper.put_order(row),
        }
    }

    fn put_withdrawn(&mut self, number: u64) -> Result<(), OutError> {
        match self {
            Store::Unopened => Err(OutError::Memory),
            Store::Database(keeper) => keeper.put_withdrawn(number),
            Store::Journal(keeper) => keeper.put_withdrawn(number),
        }
    }

    fn migrate(&mut self) -> Result<(), OutError> {
        match self {
            Store::Unopened => Err(OutError::Memory),
            Store::Database(keeper) => keeper.migrate(),
            Store::Journal(keeper) => keeper.migrate(),
        }
    }

    fn faults(&self) -> u64 {
        match self {
            Store::Unopened => 0,
            Store::Database(keeper) => keeper.faults(),
            Store::Journal(keeper) => keeper.faults(),
        }
    }
}
