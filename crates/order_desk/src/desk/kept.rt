//! What the desk keeps, for those who read it without an event.
ghost use Rattle.std.specs.Prelude.{◌≡◌, IfSome, All, slice_get};
ghost use Rattle.std.specs.Option.{option_map};
ghost use Rattle.std.specs.Map.Iter.{ShowsInOrder, deref_pair};
ghost use Rattle.desk_words.specs.declared.order_words.OrderWords.{OrderWords};
ghost use Rattle.order_desk.specs.Fits.{IsOrderUnder};
ghost use Rattle.order_desk.specs.Tables.{book_at, key_of};
ghost use Rattle.order_desk.specs.declared.kept_book.KeptBook.{KeptBook};
ghost use Rattle.order_desk.specs.declared.order_key.OrderKey.{OrderKey};

use crate::lookup::{book_at, entry_at};
use crate::{Desk, OrderKey};
use desk_words::OrderWords;
use keeper::Keeper;
use pb_base::Id;
use release::Released;
use std::collections::btree_map::Iter;
use std::sync::Arc;

impl<P: Keeper> Desk<P> {
    /// The book of this number, from 1 on, in force or not.
    pub fn book_at(&self, number: u32) -> Option<&Arc<Released>>
        ensures { option_map (λ book. book.now.value) result
            ≡ option_map (λ (kept : KeptBook). kept.released) (book_at self.now.tables.books number) }
    {
        match book_at(&self.books, number) {
            Some(book) => Some(book.released.shared()),
            None => None,
        }
    }

    /// The kept order at this place, from 0, in the order of callers and numbers: its caller, its number, and what it asks
    /// for. It goes along all orders before it, so whoever wants all of them takes `orders`. Its own book accepts it.
    pub fn order_at(&self, place: u32) -> Option<(&Id, u32, &OrderWords)>
        ensures order { option_map (λ found. (key_of found.0.now found.1, found.2.now)) result
            ≡ slice_get self.now.tables.orders place }
        ensures under { IfSome result (λ found.
            IsOrderUnder self.now.tables.books found.1 found.2.now) }
    {
        match entry_at(&self.orders, place) {
            Some((key, order)) => Some((&key.caller, key.number, order)),
            None => None,
        }
    }

    /// All kept orders, in the order of callers and numbers. Each one's own book accepts it.
    pub fn orders(&self) -> Iter<'_, OrderKey, OrderWords>
        ensures rest { result ≡ self.now.tables.orders }
        ensures runs { ShowsInOrder (deref_pair {K = OrderKey} {X = OrderWords}) }
        ensures under { All (λ e. IsOrderUnder self.now.tables.books e.0.number e.1) self.now.tables.orders }
    {
        self.orders.iter()
    }
}
