//! A source that failed.

/// The source failed while a message was read. Both counts of its faults are told.
#[derive(Clone, Copy, Debug, PartialEq, Eq)]
pub struct ReadFault {
    /// The count when the call began.
    pub before: u64,
    /// The count when it ended.
    pub after: u64,
}
