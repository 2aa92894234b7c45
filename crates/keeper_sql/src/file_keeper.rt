//! A keeper over a file of the system.
ghost use Rattle.std.specs.Prelude.{◌≡◌, None};

use crate::SqlKeeper;
use keeper::{BookRow, DraftRow, Keeper, OrderRow, Rows};
use pb_outside::OutError;
use sqlite::{File, FileStore};

/// A keeper over a file, which sqlite3 can read while no keeper holds it. It is a type of its own, so that what runs over it
/// need not know by which types of other crates it is a keeper.
#[derive(Drop)]
pub struct FileKeeper {
    keeper: SqlKeeper<FileStore<File>>,
}

impl FileKeeper {
    /// A keeper that has no store yet, and no fault so far.
    pub fn new(rt: HostRuntime) -> FileKeeper
        ensures { (⟦<FileKeeper as Keeper>⟧.failures result).count ≡ 0 }
    {
        FileKeeper {
            keeper: SqlKeeper::new(rt),
        }
    }

    /// Ends the store: its log is copied into its file, and taken away. False says that this failed: the rows are then in
    /// the file and the log beside it, and the next keeper over both has them.
    pub fn close(self) -> bool {
        self.keeper.close()
    }
}

impl Keeper for FileKeeper {
    ghost told = { λ k. ⟦<SqlKeeper<FileStore<File>> as Keeper>⟧.told k.keeper };

    ghost failures = { λ k. ⟦<SqlKeeper<FileStore<File>> as Keeper>⟧.failures k.keeper };

    ghost calls = { λ _. None };

    ghost may_begin = { λ k. ⟦<SqlKeeper<FileStore<File>> as Keeper>⟧.may_begin k.keeper };

    fn begin(&mut self, name: &str) -> Result<(), OutError> {
        self.keeper.begin(name)
    }

    fn load(&mut self) -> Result<Rows, OutError> {
        self.keeper.load()
    }

    fn put_draft(&mut self, row: &DraftRow) -> Result<(), OutError> {
        self.keeper.put_draft(row)
    }

    fn put_book(&mut self, row: &BookRow) -> Result<(), OutError> {
        self.keeper.put_book(row)
    }

    fn put_order(&mut self, row: &OrderRow) -> Result<(), OutError> {
        self.keeper.put_order(row)
    }

    fn put_withdrawn(&mut self, number: u64) -> Result<(), OutError> {
        self.keeper.put_withdrawn(number)
    }

    fn migrate(&mut self) -> Result<(), OutError> {
        self.keeper.migrate()
    }

    fn faults(&self) -> u64 {
        self.keeper.faults()
    }
}
