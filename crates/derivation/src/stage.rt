//! How far a certificate has been read.

use crate::closing::ToClose;
use clause_pool::Checker;

/// What may stand on the next line of a certificate.
#[derive(Drop)]
pub(crate) enum Stage {
    /// The first line.
    Head,
    /// The book line.
    Book,
    /// The line of the first slice.
    Slices,
    /// The set line of a slice.
    Set(u32),
    /// A line of a slice, or the line behind it. The slice stays where it is while the stage goes from line to line.
    Within(Box<OpenSlice>),
    /// Nothing.
    End,
}

/// A slice of which the set line has been read. Only one is held at a time.
#[derive(Drop)]
pub(crate) struct OpenSlice {
    pub(crate) slice: u32,
    pub(crate) checker: Checker,
    /// The questions to close, in order.
    pub(crate) to_close: Vec<ToClose>,
    /// How many of them are closed.
    pub(crate) closed: usize,
}
