//! The limits of what the desk keeps.

/// The most drafts.
pub const MOST_DRAFTS: usize = 1_024;

/// The most released books.
pub const MOST_BOOKS: usize = 256;

/// The most kept orders.
pub const MOST_ORDERS: usize = 200_000;

/// The highest revision of a draft.
pub const MOST_REVISION: u32 = 4_000_000_000;

/// The most orders in one list.
pub const MOST_LISTED: usize = 1_000;

/// The highest number that a caller may give an order.
pub const MOST_ORDER_NUMBER: u32 = 999_999_999;
