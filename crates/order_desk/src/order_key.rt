//! By what an order is kept.

use pb_base::Id;

/// A caller, and the caller's own number of an order. Orders are kept by their callers, and those of one caller by their numbers.
#[derive(Clone, Copy, PartialEq, Eq, PartialOrd, Ord)]
pub struct OrderKey {
    pub caller: Id,
    /// From 1 to `MOST_ORDER_NUMBER`.
    pub number: u32,
}
