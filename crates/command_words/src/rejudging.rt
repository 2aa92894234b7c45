//! The judging of kept orders that words ask for.
ghost use Rattle.std.specs.Prelude.{◌≡◌, ◌≤◌};

use crate::file_name::FileName;
use crate::workers::Workers;
use std::marker::Model;

/// The orders of a store, judged again: the store, the number of the book, counted from 1, and how many workers judge.
#[derive(Drop)]
pub struct Rejudging {
    store: FileName,
    book: u32,
    workers: Workers,
}

impl Model for Rejudging {
    ghost use Rattle.command_words.specs.Rejudging.{Rejudging};

    ghost Value = { Rejudging };

    ghost view = { λ r. record { store = r.store; book = r.book; workers = r.workers } };
}

impl Rejudging {
    pub fn of(store: FileName, book: u32, workers: Workers) -> Rejudging
        ensures { result ≡ record { store = store; book = book; workers = workers } }
    {
        Rejudging {
            store,
            book,
            workers,
        }
    }

    pub fn store(&self) -> &str
        ensures { result.now ≡ self.now.store }
    {
        self.store.as_str()
    }

    pub fn book(&self) -> u32
        ensures { result ≡ self.now.book }
    {
        self.book
    }

    pub fn workers(&self) -> u32
        ensures value { result ≡ self.now.workers }
        ensures some { 1 ≤ result }
    {
        self.workers.count()
    }
}
