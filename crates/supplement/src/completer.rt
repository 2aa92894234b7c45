//! Completing orders of one book on one day.
ghost use Rattle.std.specs.Prelude.{◌≡◌, IfOk, IsTrue, length};
ghost use Rattle.book_model.specs.Good.{is_closed};
ghost use Rattle.supplement.specs.Completion.{completion_of, Includes};

use crate::completed::Completed;
use crate::tables::CompletionTables;
use book_model::Book;
use pb_base::{CodeSet, Day, Memory};
use std::alloc::Global;
use std::marker::Model;

/// Completes orders of a book on one day.
#[derive(Drop)]
pub struct Completer<'a> {
    book: &'a Book,
    tables: CompletionTables,
    day: Day,
}

impl<'a> Model for Completer<'a> {
    ghost use Rattle.supplement.specs.Completing.{Completing, completing_code};
    ghost use Rattle.supplement.specs.Tables.{AreTables};

    ghost Value = { Completing };

    ghost coded = { completing_code };

    ghost view = { λ c. record { book = c.book.now; day = c.day } };

    ghost invariant = { λ c. AreTables c.book.now c.tables };
}

impl<'a> Completer<'a> {
    /// What completes the orders of this book on this day.
    pub fn new(alloc: Global, book: &'a Book, day: Day) -> Result<Completer<'a>, Memory>
        ensures { IfOk result (λ c. c ≡ record { book = book.now; day = day }) }
    {
        let tables = CompletionTables::of(alloc, book)?;
        Ok(Completer { book, tables, day })
    }

    /// Adds to a set of the book's codes what its supplementing rules add. On want of memory the set is given up.
    pub fn complete(&self, alloc: Global, set: CodeSet) -> Result<Completed, Memory>
        requires { length set ≡ length self.now.book.codes }
        ensures completion { IfOk result (λ c. c ≡ completion_of self.now.book self.now.day set) }
        ensures closed { IfOk result (λ c. IsTrue (is_closed self.now.book self.now.day c.set)) }
        ensures includes { IfOk result (λ c. Includes set c.set) }
        ensures same_codes { IfOk result (λ c. length c.set ≡ length set) }
    {
        self.tables.complete(alloc, self.book, self.day, set)
    }
}
