//! A run of days on which an order comes to the same.

use book_model::Slice;
use parts_usage::Outcome;
use pb_base::Day;

/// Days on which an order comes to the same, both ends among them.
#[derive(Drop)]
pub struct Run {
    pub first: Day,
    pub last: Day,
    /// What it comes to on the first of them. On the others the same parts may be those of other variants.
    pub outcome: Outcome,
}
