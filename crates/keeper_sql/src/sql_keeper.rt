//! A keeper over a file.
ghost use Rattle.std.specs.Prelude.{◌≡◌, None, ⊤};
ghost use Rattle.keeper.specs.Counting.{fallible};
ghost use Rattle.keeper_sql.specs.Kinds.{by_kind};

use crate::{Opens, begin, load, migrate, put_book, put_draft, put_order, put_withdrawn};
use keeper::{BookRow, DraftRow, Keeper, OrderRow, Rows, counted};
use pb_base::Fail;
use pb_outside::{FaultCount, OutError};
use sqlite::{Alter, Connection, Error, ErrorCode, File, FileStore};
use std::fs;
use std::io::ErrorKind;

/// Rows in a store over `sqlite`. It holds the connection from `begin` on, counts each refusal that isn't want of memory
/// as a fault, and tells no rows.
#[derive(Drop)]
pub struct SqlKeeper<S: Alter + Drop> {
    rt: HostRuntime,
    // Some 3 KB for a file. Whoever hands the keeper on moves the box alone.
    store: Option<Box<OpenStore<S>>>,
    faults: FaultCount,
}

// An open store, and the name of its log.
#[derive(Drop)]
struct OpenStore<S: Alter + Drop> {
    connection: Connection<S>,
    log: String,
}

// What a call before `begin` comes to, too.
const CANNOT_OPEN: Error = Error::SqliteFailure(ErrorCode::CannotOpen);

impl<S: Opens> SqlKeeper<S> {
    /// A keeper that has no store yet, and no fault so far.
    pub fn new(rt: HostRuntime) -> SqlKeeper<S>
        ensures { (⟦<SqlKeeper<S> as Keeper>⟧.failures result).count ≡ 0 }
    {
        SqlKeeper {
            rt,
            store: None,
            faults: FaultCount::new(),
        }
    }
}

impl SqlKeeper<FileStore<File>> {
    /// Ends the store: its log is copied into its file, and taken away. False says that this failed: the rows are then in
    /// the file and the log beside it, and the next keeper over both has them.
    pub fn close(self) -> bool {
        let SqlKeeper {
            rt,
            store,
            faults: _,
        } = self;
        let Some(store) = store else {
            return true;
        };
        let OpenStore { connection, log } = Box::into_inner(store);
        match connection.close_files() {
            Ok(files) => {
                // As long as the files are held, no other program has begun a log of its own.
                let is_gone = fs::remove_file(&rt, log.as_str()).is_ok();
                drop(files);
                is_gone
            }
            Err(_) => false,
        }
    }
}

// Opens the store, or makes it where there is none.
fn opened<S: Opens>(rt: &HostRuntime, name: &str) -> Result<Box<OpenStore<S>>, Error> {
    let mut connection = S::open(rt, name)?;
    begin(&mut connection)?;
    let log = log_of(rt, name)?;
    Ok(Box::new(rt.alloc(), OpenStore { connection, log })?)
}

// The name of the log, which lies beside the file that a link leads to.
fn log_of(rt: &HostRuntime, name: &str) -> Result<String, Error> {
    match fs::canonicalize(rt, name) {
        Ok(path) => {
            let mut log = String::from_str(rt.alloc(), path.as_str())?;
            log.push_str("-wal")?;
            Ok(log)
        }
        Err(error) if error.kind() == ErrorKind::OutOfMemory => {
            Err(Error::SqliteFailure(ErrorCode::OutOfMemory))
        }
        Err(_) => Err(CANNOT_OPEN),
    }
}

// What statements came to, with want of memory told apart from every other error.
fn by_kind<T: Drop>(done: Result<T, Error>) -> Result<T, Fail<Error>>
    ensures { result ≡ by_kind done }
{
    match done {
        Ok(answer) => Ok(answer),
        Err(Error::SqliteFailure(ErrorCode::OutOfMemory)) => Err(Fail::Memory),
        Err(error) => Err(Fail::Refused(error)),
    }
}

impl<S: Opens> Keeper for SqlKeeper<S> {
    ghost told = { λ _. None };

    ghost failures = { λ k. fallible k.faults };

    ghost calls = { λ _. None };

    ghost may_begin = { λ _ _. ⊤ };

    fn begin(&mut self, name: &str) -> Result<(), OutError> {
        let store = counted(&mut self.faults, by_kind(opened(&self.rt, name)))?;
        self.store = Some(store);
        Ok(())
    }

    fn load(&mut self) -> Result<Rows, OutError> {
        let rows = match &mut self.store {
            Some(store) => load(self.rt.alloc(), &mut store.connection),
            None => Err(CANNOT_OPEN),
        };
        counted(&mut self.faults, by_kind(rows))
    }

    fn put_draft(&mut self, row: &DraftRow) -> Result<(), OutError> {
        let done = match &mut self.store {
            Some(store) => put_draft(&mut store.connection, row),
            None => Err(CANNOT_OPEN),
        };
        counted(&mut self.faults, by_kind(done))
    }

    fn put_book(&mut self, row: &BookRow) -> Result<(), OutError> {
        let done = match &mut self.store {
            Some(store) => put_book(&mut store.connection, row),
            None => Err(CANNOT_OPEN),
        };
        counted(&mut self.faults, by_kind(done))
    }

    fn put_order(&mut self, row: &OrderRow) -> Result<(), OutError> {
        let done = match &mut self.store {
            Some(store) => put_order(&mut store.connection, row),
            None => Err(CANNOT_OPEN),
        };
        counted(&mut self.faults, by_kind(done))
    }

    fn put_withdrawn(&mut self, number: u64) -> Result<(), OutError> {
        let done = match &mut self.store {
            Some(store) => put_withdrawn(&mut store.connection, number),
            None => Err(CANNOT_OPEN),
        };
        counted(&mut self.faults, by_kind(done))
    }

    fn migrate(&mut self) -> Result<(), OutError> {
        let done = match &mut self.store {
            Some(store) => migrate(&mut store.connection),
            None => Err(CANNOT_OPEN),
        };
        counted(&mut self.faults, by_kind(done))
    }

    fn faults(&self) -> u64 {
        self.faults.faults()
    }
}
