//! What stands at a key.
ghost use Rattle.std.specs.Prelude.{◌≡◌, ◌≤◌, length, option_copied, slice_get};
ghost use Rattle.std.specs.Map.Iter.{deref_pair};
ghost use Rattle.std.specs.Option.{option_map};
ghost use Rattle.order_desk.specs.Effect.{same_order};
ghost use Rattle.order_desk.specs.Tables.{book_at, released_as};
ghost use Rattle.order_desk.specs.declared.limits.TheConstants.{MOST_BOOKS as most_books};

use crate::{KeptBook, OrderKey};
use desk_words::{OrderWords, equal_orders};
use pb_base::Id;
use std::collections::BTreeMap;

/// The book of this number.
pub(crate) fn book_at(books: &[KeptBook], number: u32) -> Option<&KeptBook>
    ensures { option_copied result ≡ book_at books.now number }
{
    if number == 0 {
        return None;
    }
    books.get(number as usize - 1)
}

/// The number of the book that was released of this revision of a draft.
pub(crate) fn released_as(books: &[KeptBook], draft: Id, revision: u32) -> Option<u32>
    requires { length books.now ≤ most_books }
    ensures { result ≡ released_as books.now draft revision }
{
    for (place, book) in books.iter().enumerate() {
        if book.draft == draft && book.revision == revision {
            return Some(place as u32 + 1);
        }
    }
    None
}

/// The order at this place, from 0, in the order of the keys. It goes along those before it.
pub(crate) fn entry_at(
    orders: &BTreeMap<OrderKey, OrderWords>,
    place: u32,
) -> Option<(&OrderKey, &OrderWords)>
    ensures { option_map deref_pair result ≡ slice_get orders.now.entries place }
{
    orders.iter().nth(place as usize)
}

/// Whether two orders say the same.
pub(crate) fn same_order(a: &OrderWords, b: &OrderWords) -> bool
    ensures { result ≡ same_order a.now b.now }
{
    equal_orders(a, b)
}
