//! What an order says.
ghost use Rattle.std.specs.Prelude.{◌≡◌, ◌↔◌, IfOk, IsTrue};

use pb_base::{CodeList, Day, Memory};
use std::alloc::Global;

/// What an order says: the book that it names, the production day, and the codes that the customer chose, in their sequence.
#[derive(Drop)]
pub struct OrderWords {
    /// The number of the book, counted from 1.
    pub book: u32,
    pub day: Day,
    pub codes: CodeList,
}

impl OrderWords {
    /// A further order that says the same.
    pub fn copy(&self, alloc: Global) -> Result<OrderWords, Memory>
        ensures { IfOk result (λ order. order ≡ self.now) }
    {
        Ok(OrderWords {
            book: self.book,
            day: self.day,
            codes: self.codes.copy(alloc)?,
        })
    }
}

/// Whether two orders say the same: the same book, the same day, and the same codes in the same sequence.
pub fn equal_orders(a: &OrderWords, b: &OrderWords) -> bool
    ensures { IsTrue result ↔ (a.now ≡ b.now) }
{
    a.book == b.book && a.day == b.day && same_codes(&a.codes, &b.codes)
}

fn same_codes(a: &CodeList, b: &CodeList) -> bool
    ensures { IsTrue result ↔ (a.now ≡ b.now) }
{
    a.as_slice() == b.as_slice()
}
