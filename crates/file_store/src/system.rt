//! The stores of the system.
ghost use Rattle.std.specs.Prelude.{◌≡◌};
ghost use Rattle.file_store.specs.Store.{is_journal};

use crate::store::Store;
use journal_keeper::FileJournal;
use keeper::Keeper;
use keeper_sql::FileKeeper;

/// A store in files of the system.
pub type FileStore = Store<FileKeeper, FileJournal>;

/// The store of this name, which begins by no other: a journal in a file where the name ends in `.journal`, and a file of
/// SQLite else. Nothing is opened yet. Without memory for the name of a journal it holds no keeper.
pub fn store_at(rt: HostRuntime, name: &str) -> FileStore
    ensures { ⟦<FileStore as Keeper>⟧.may_begin result name.now }
{
    if !is_journal(name) {
        return Store::Database(FileKeeper::new(rt));
    }
    match String::from_str(rt.alloc(), name) {
        Ok(path) => Store::Journal(FileJournal::new(rt, path)),
        Err(_) => Store::Unopened,
    }
}

fn is_journal(name: &str) -> bool
    ensures { result ≡ is_journal name.now }
{
    name.as_bytes().ends_with(b".journal")
}

/// Ends the store. False says that what a store of SQLite has in its log could not be copied into its file: the rows are
/// then in both, and the next keeper over both has them. A journal is always whole.
pub fn close(store: FileStore) -> bool {
    match store {
        Store::Database(keeper) => keeper.close(),
        Store::Journal(_) | Store::Unopened => true,
    }
}
