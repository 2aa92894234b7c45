//! Kept books.

use crate::new_book::NewBook;
use crate::shared_book::SharedBook;
use pb_base::Id;
use std::marker::Model;

/// A released book, with the draft and the revision that it was released of.
#[derive(Drop)]
pub struct KeptBook {
    pub draft: Id,
    pub revision: u32,
    pub released: SharedBook,
    /// Whether it is out of force for new orders.
    pub withdrawn: bool,
}

/// A book that is to be kept. It is in force.
#[derive(Drop)]
pub(crate) struct BookToKeep {
    pub draft: Id,
    pub revision: u32,
    pub released: NewBook,
}

impl Model for BookToKeep {
    ghost use Rattle.order_desk.specs.StateCode.{book_code};
    ghost use Rattle.order_desk.specs.declared.kept_book.KeptBook.{KeptBook};
    ghost use Rattle.std.specs.Prelude.{false};

    ghost Value = { KeptBook };

    ghost coded = { book_code };

    ghost view = { λ b. record {
      draft = b.draft;
      revision = b.revision;
      released = b.released;
      withdrawn = false;
    } };
}
