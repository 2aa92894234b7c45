//! How a worker ends.

/// How a worker ends.
#[derive(Clone, Copy, Debug, PartialEq, Eq)]
pub enum WorkEnd {
    /// The port gives no more links.
    Over,
    /// The port failed while it was asked for the next link.
    Fault,
    /// There was no memory for the next link.
    Memory,
}
