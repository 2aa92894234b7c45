//! The judging of kept orders by a book that is a file, as words ask for it.
ghost use Rattle.std.specs.Prelude.{◌≡◌, ◌≤◌};

use crate::file_name::FileName;
use crate::workers::Workers;
use std::marker::Model;

/// The orders of a store, judged by another book: the store, the file that is the book's text, and how many workers judge.
#[derive(Drop)]
pub struct Impact {
    store: FileName,
    file: FileName,
    workers: Workers,
}

impl Model for Impact {
    ghost use Rattle.command_words.specs.Impact.{Impact};

    ghost Value = { Impact };

    ghost view = { λ i. record { store = i.store; file = i.file; workers = i.workers } };
}

impl Impact {
    pub fn of(store: FileName, file: FileName, workers: Workers) -> Impact
        ensures { result ≡ record { store = store; file = file; workers = workers } }
    {
        Impact {
            store,
            file,
            workers,
        }
    }

    pub fn store(&self) -> &str
        ensures { result.now ≡ self.now.store }
    {
        self.store.as_str()
    }

    pub fn file(&self) -> &str
        ensures { result.now ≡ self.now.file }
    {
        self.file.as_str()
    }

    pub fn workers(&self) -> u32
        ensures value { result ≡ self.now.workers }
        ensures some { 1 ≤ result }
    {
        self.workers.count()
    }
}
