//! Production days.

/// A production day: a whole number, 1 for the first. There are no calendar dates.
pub type Day = u32;
