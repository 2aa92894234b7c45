//! Where the head of a message stands.

use crate::refusal::Refusal;

/// What stands at the front of a stream.
#[derive(Clone, Copy, Debug, PartialEq, Eq)]
pub enum Front {
    /// Nothing but line ends: the stream ends here.
    End,
    /// No head: it is refused.
    Bad(Refusal),
    /// A head of so many bytes, behind so many bytes of line ends that are skipped.
    Block { skipped: usize, length: usize },
}
