//! What an accepted order comes to by another book.

use parts_usage::OrderFault;

/// What an accepted order comes to by another book than its own.
#[derive(Clone, Copy, Debug, PartialEq, Eq)]
pub enum Again {
    /// It is accepted, and the same parts stand at each position.
    Same,
    /// It is accepted, and at some position another part stands, or another number of it, or none, or one where there was none.
    Other,
    /// The constructibility rule at this place, counted from 0, is the first that the completed set breaks.
    Refused(u32),
    /// The order isn't one of the other book: the day is not in its term, or it lacks a code.
    Fault(OrderFault),
}
