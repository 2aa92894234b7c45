//! Released books that are to be kept.
ghost use Rattle.std.specs.Prelude.{◌≡◌, IfOk};

use crate::shared_book::SharedBook;
use crate::writing::bodies_of;
use pb_base::{Body, Memory};
use release::Released;
use std::alloc::Global;
use std::marker::Model;

/// A released book that the desk is to keep, with the texts for its row. They are copied when it is made, so in no turn.
#[derive(Drop)]
pub struct NewBook {
    book: SharedBook,
    text: Body,
    cert: Body,
}

impl Model for NewBook {
    ghost use Rattle.release.specs.Release.{Release};
    ghost use Rattle.release.specs.ReleaseCode.{release_code};
    ghost use Rattle.std.specs.Prelude.{◌≡◌};

    ghost Value = { Release };

    ghost coded = { release_code };

    ghost view = { λ n. n.book };

    ghost invariant = { λ n. (n.text ≡ n.book.text) × (n.cert ≡ n.book.cert) };
}

impl NewBook {
    /// Takes a released book into the memory that is shared, and copies its text and its certificate.
    pub fn new(alloc: Global, released: Released) -> Result<NewBook, Memory>
        ensures { IfOk result (λ book. book ≡ released) }
    {
        let (text, cert) = bodies_of(alloc, released.text(), released.cert())?;
        let book = SharedBook::new(alloc, released)?;
        Ok(NewBook { book, text, cert })
    }

    /// The book, and the copies of its text and its certificate.
    pub(crate) fn into_parts(self) -> (SharedBook, Body, Body)
        ensures book { result.0 ≡ self }
        ensures text { result.1 ≡ self.text }
        ensures cert { result.2 ≡ self.cert }
    {
        let NewBook { book, text, cert } = self;
        (book, text, cert)
    }
}
