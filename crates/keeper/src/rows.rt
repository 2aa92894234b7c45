//! The rows of a store.
ghost use Rattle.std.specs.Prelude.{◌≡◌, IfOk};
ghost use Rattle.keeper.specs.Rows.{kept_of, is_empty};

use crate::table::copied;
use pb_base::{Body, Memory};

/// A draft as it stands now.
#[derive(Drop)]
pub struct DraftRow {
    pub name: Body,
    pub owner: Body,
    /// Counted from 1, one more with each change of the text.
    pub revision: u64,
    /// The text of the book.
    pub text: Body,
}

/// A released book.
#[derive(Drop)]
pub struct BookRow {
    /// Counted from 1, in the sequence of the releases.
    pub number: u64,
    /// The name of the draft that was released.
    pub draft: Body,
    /// The revision of the draft that was released.
    pub revision: u64,
    pub text: Body,
    pub cert: Body,
}

/// A kept order.
#[derive(Drop)]
pub struct OrderRow {
    pub caller: Body,
    /// The caller's own number of the order.
    pub number: u64,
    /// The number of the book that it was judged under.
    pub book: u64,
    pub day: u64,
    /// The codes, parted by one space. It is empty where the order has none.
    pub codes: Body,
}

/// All rows of a store.
#[derive(Drop)]
pub struct Rows {
    /// 0 in an empty store, 1 in one that has no table of withdrawn books, 2 in one that has.
    pub form: u64,
    pub drafts: Vec<DraftRow>,
    pub books: Vec<BookRow>,
    pub orders: Vec<OrderRow>,
    /// The numbers of the withdrawn books.
    pub withdrawn: Vec<u64>,
}

impl Rows {
    /// Whether nothing was ever kept: there is neither a form nor a row.
    pub(crate) fn are_none(&self) -> bool
        ensures { result ≡ is_empty (kept_of self.now) }
    {
        self.form == 0
            && self.drafts.is_empty()
            && self.books.is_empty()
            && self.orders.is_empty()
            && self.withdrawn.is_empty()
    }

    /// Further rows that are equal to these.
    pub(crate) fn copy(&self) -> Result<Rows, Memory>
        ensures { IfOk result (λ rows. kept_of rows ≡ kept_of self.now) }
    {
        Ok(Rows {
            form: self.form,
            drafts: copied(&self.drafts)?,
            books: copied(&self.books)?,
            orders: copied(&self.orders)?,
            withdrawn: copied(&self.withdrawn)?,
        })
    }
}
