//! A keeper over a journal in a file of the system.
ghost use Rattle.std.specs.Prelude.{◌≡◌, string_bytes};

use crate::JournalKeeper;
use disk::{FileDisk, SystemFile};
use keeper::{BookRow, DraftRow, Keeper, OrderRow, Rows};
use pb_outside::OutError;

/// A keeper over a journal in a file of the system. It is a type of its own, so that what runs over it need not know by which
/// types of other crates it is a keeper. It tells no rows.
#[derive(Drop)]
pub struct FileJournal {
    keeper: JournalKeeper<FileDisk<SystemFile>>,
}

impl FileJournal {
    /// The journal in the file of this path. The file isn't open yet, and there was no fault.
    pub fn new(rt: HostRuntime, path: String) -> FileJournal
        ensures faults { (⟦<FileJournal as Keeper>⟧.failures result).count ≡ 0 }
        ensures name { ⟦<FileJournal as Keeper>⟧.may_begin result (string_bytes path) }
    {
        FileJournal {
            keeper: JournalKeeper::new(rt.alloc(), FileDisk::new(SystemFile::new(rt, path))),
        }
    }
}

impl Keeper for FileJournal {
    ghost use Rattle.std.specs.Prelude.{None};

    ghost told = { λ _. None };

    ghost failures = { λ k. ⟦<JournalKeeper<FileDisk<SystemFile>> as Keeper>⟧.failures k.keeper };

    ghost calls = { λ _. None };

    ghost may_begin = { λ k. ⟦<JournalKeeper<FileDisk<SystemFile>> as Keeper>⟧.may_begin k.keeper };

    fn begin(&mut self, name: &str) -> Result<(), OutError> {
        self.keeper.begin(name)
    }

    fn load(&mut self) -> Result<Rows, OutError> {
        self.keeper.load()
    }

    fn put_draft(&mut self, row: &DraftRow) -> Result<(), OutError> {
        self.keeper.put_draft(row)
    }

    fn put_book(&mut self, row: &BookRow) -> Result<(), OutError> {
        self.keeper.put_book(row)
    }

    fn put_order(&mut self, row: &OrderRow) -> Result<(), OutError> {
        self.keeper.put_order(row)
    }

    fn put_withdrawn(&mut self, number: u64) -> Result<(), OutError> {
        self.keeper.put_withdrawn(number)
    }

    fn migrate(&mut self) -> Result<(), OutError> {
        self.keeper.migrate()
    }

    fn faults(&self) -> u64 {
        self.keeper.faults()
    }
}
