//! Rows that have keys.
ghost use Rattle.std.specs.Prelude.{◌≡◌, IfOk};
ghost use Rattle.std.specs.Ordering.{nat_cmp};
ghost use Rattle.std.specs.declared.cmp.Ordering.{Ordering};
ghost use Rattle.keeper.specs.Keys.{by_name, by_number, by_caller};

use crate::{BookRow, DraftRow, OrderRow};
use pb_base::Memory;
use std::alloc::Global;
use std::cmp::Ordering;

/// A row of a table that is in the order of its keys.
pub trait Keyed: Drop {
    /// How the key of one row stands to that of another.
    ghost by_key: { Self → Self → Ordering };

    fn cmp_key(&self, other: &Self) -> Ordering
        ensures { result ≡ by_key self.now other.now };

    /// A further row that is equal to this one.
    fn copy(&self, alloc: Global) -> Result<Self, Memory>
        ensures { IfOk result (λ row. row ≡ self.now) };
}

impl Keyed for DraftRow {
    ghost by_key = { by_name };

    fn cmp_key(&self, other: &DraftRow) -> Ordering {
        self.name.as_slice().cmp(other.name.as_slice())
    }

    fn copy(&self, alloc: Global) -> Result<DraftRow, Memory> {
        Ok(DraftRow {
            name: self.name.copy(alloc)?,
            owner: self.owner.copy(alloc)?,
            revision: self.revision,
            text: self.text.copy(alloc)?,
        })
    }
}

impl Keyed for BookRow {
    ghost by_key = { by_number };

    fn cmp_key(&self, other: &BookRow) -> Ordering {
        self.number.cmp(&other.number)
    }

    fn copy(&self, alloc: Global) -> Result<BookRow, Memory> {
        Ok(BookRow {
            number: self.number,
            draft: self.draft.copy(alloc)?,
            revision: self.revision,
            text: self.text.copy(alloc)?,
            cert: self.cert.copy(alloc)?,
        })
    }
}

impl Keyed for OrderRow {
    ghost by_key = { by_caller };

    fn cmp_key(&self, other: &OrderRow) -> Ordering {
        let callers = self.caller.as_slice().cmp(other.caller.as_slice());
        callers.then(self.number.cmp(&other.number))
    }

    fn copy(&self, alloc: Global) -> Result<OrderRow, Memory> {
        Ok(OrderRow {
            caller: self.caller.copy(alloc)?,
            number: self.number,
            book: self.book,
            day: self.day,
            codes: self.codes.copy(alloc)?,
        })
    }
}

impl Keyed for u64 {
    ghost by_key = { nat_cmp };

    fn cmp_key(&self, other: &u64) -> Ordering {
        self.cmp(other)
    }

    fn copy(&self, _: Global) -> Result<u64, Memory> {
        Ok(*self)
    }
}
