//! Why what stands in a stream is no message.

/// Why what stands in a stream is no message. Each is told by a status of its own.
#[derive(Clone, Copy, Debug, PartialEq, Eq)]
pub enum Refusal {
    /// No head by the grammar, not just one Host field, or a length that is no number: 400.
    Malformed,
    /// A body that is longer than a text may be: 413.
    LongBody,
    /// A head of too many bytes or field lines: 431.
    LongHead,
    /// A body in some coding: 501.
    Coded,
}
