//! Books that are released.
ghost use Rattle.std.specs.Prelude.{◌≡◌, IfOk, length};
ghost use Rattle.parts_usage.specs.Broken.{first_broken_of};
ghost use Rattle.release.specs.Release.{IsRelease};
ghost use Rattle.supplement.specs.Completion.{completion_of};

use book_model::Book;
use parts_usage::GuardTable;
use pb_base::{Body, CodeSet, Day, Memory};
use std::alloc::Global;
use std::marker::Model;
use supplement::{Completed, CompletionTables};

/// A released book: its text, the book that the text reads as, and the certificate that the book can be released. It never
/// changes. Beside them it keeps tables of its rules, which are made once and then serve every order.
#[derive(Drop)]
pub struct Released {
    text: Body,
    book: Book,
    cert: Body,
    completion: CompletionTables,
    guards: GuardTable,
}

impl Model for Released {
    ghost use Rattle.std.specs.Prelude.{◌≡◌};
    ghost use Rattle.parts_usage.specs.Broken.{guards_of};
    ghost use Rattle.release.specs.Release.{Release, IsRelease};
    ghost use Rattle.release.specs.ReleaseCode.{release_code};
    ghost use Rattle.supplement.specs.Tables.{AreTables};

    ghost Value = { Release };

    ghost coded = { release_code };

    ghost view = { λ r. record { text = r.text; book = r.book; cert = r.cert } };

    ghost invariant = { λ r.
        IsRelease (record { text = r.text; book = r.book; cert = r.cert })
        × AreTables r.book r.completion
        × (r.guards ≡ guards_of r.book) };
}

impl Released {
    /// The release of these three, for who knows that the certificate is the book's.
    pub fn of(alloc: Global, text: Body, book: Book, cert: Body) -> Result<Released, Memory>
        requires { IsRelease (record { text = text; book = book; cert = cert }) }
        ensures { IfOk result (λ r. r ≡ record { text = text; book = book; cert = cert }) }
    {
        match CompletionTables::of(alloc, &book) {
            Ok(completion) => match GuardTable::of(alloc, &book) {
                Ok(guards) => Ok(Released {
                    text,
                    book,
                    cert,
                    completion,
                    guards,
                }),
                Err(Memory) => Err(Memory),
            },
            Err(Memory) => Err(Memory),
        }
    }

    /// The text of the book, as it was handed in.
    pub fn text(&self) -> &[u8]
        ensures { result.now ≡ self.now.text }
    {
        self.text.as_slice()
    }

    /// The book.
    pub fn book(&self) -> &Book
        ensures value { result.now ≡ self.now.book }
        ensures release { IsRelease self.now }
    {
        &self.book
    }

    /// The certificate, as it was handed in or made.
    pub fn cert(&self) -> &[u8]
        ensures { result.now ≡ self.now.cert }
    {
        self.cert.as_slice()
    }

    /// Adds to a set of the book's codes what its supplementing rules add on a day. On want of memory the set is given up.
    pub fn complete(&self, alloc: Global, day: Day, set: CodeSet) -> Result<Completed, Memory>
        requires { length set ≡ length self.now.book.codes }
        ensures completion { IfOk result (λ c. c ≡ completion_of self.now.book day set) }
        ensures same_codes { IfOk result (λ c. length c.set ≡ length set) }
    {
        self.completion.complete(alloc, &self.book, day, set)
    }

    /// The place of the first constructibility rule, counted from 0, that the set breaks on the day; None where it breaks none.
    pub fn first_broken(&self, day: Day, set: &CodeSet) -> Option<u32>
        requires { length set.now ≡ length self.now.book.codes }
        ensures { result ≡ first_broken_of self.now.book day set.now }
    {
        self.guards.first_broken(&self.book, day, set)
    }
}
