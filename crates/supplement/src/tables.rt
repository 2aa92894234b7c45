//! What completing the orders of a book needs of its rules.
ghost use Rattle.std.specs.Prelude.{◌≡◌, IfOk, IsTrue, length};
ghost use Rattle.book_model.specs.Good.{is_closed};
ghost use Rattle.supplement.specs.Completion.{completion_of, Includes};
ghost use Rattle.supplement.specs.Tables.{AreTables};

use crate::completed::Completed;
use crate::completion::complete_by_worklist;
use crate::occurrences::OccurrenceLists;
use crate::standing::standing_rules;
use crate::worklist::Candidate;
use book_model::Book;
use pb_base::{CodeSet, Day, Memory};
use std::alloc::Global;

/// Tables of a book's supplementing rules. They are made once, in time that is linear in the rules, and then serve any number
/// of orders, for any days: each costs what the rules cost that stand anyway or have a code that was ordered or added. They
/// don't borrow the book, so that who owns it may keep them beside it.
#[derive(Drop)]
pub struct CompletionTables {
    standing: Vec<Candidate>,
    occurrences: OccurrenceLists,
}

impl CompletionTables {
    /// The tables of this book.
    pub fn of(alloc: Global, book: &Book) -> Result<CompletionTables, Memory>
        ensures { IfOk result (AreTables book.now) }
    {
        let codes = book.codes().len();
        let standing = standing_rules(alloc, codes, book.supplements())?;
        let occurrences = OccurrenceLists::of(alloc, codes, book.supplements())?;
        Ok(CompletionTables {
            standing,
            occurrences,
        })
    }

    /// Adds to a set of the book's codes what its supplementing rules add on a day. On want of memory the set is given up.
    pub fn complete(
        &self,
        alloc: Global,
        book: &Book,
        day: Day,
        set: CodeSet,
    ) -> Result<Completed, Memory>
        requires tables { AreTables book.now self.now }
        requires codes { length set ≡ length book.now.codes }
        ensures completion { IfOk result (λ c. c ≡ completion_of book.now day set) }
        ensures closed { IfOk result (λ c. IsTrue (is_closed book.now day c.set)) }
        ensures includes { IfOk result (λ c. Includes set c.set) }
        ensures same_codes { IfOk result (λ c. length c.set ≡ length set) }
    {
        complete_by_worklist(
            alloc,
            book.supplements(),
            &self.standing,
            &self.occurrences,
            day,
            set,
        )
    }
}
