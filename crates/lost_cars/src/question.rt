//! Ways in which a car of one book may be lost in another.

/// A rule or a code, by its place in its book, counted from 0.
#[derive(Clone, Copy)]
pub(crate) enum Question {
    /// A supplementing rule of the other book fires over the car.
    Fires(u32),
    /// A constructibility rule of the other book is broken by it.
    Breaks(u32),
    /// The car has a code of its own book of which the other book has no name.
    Lacks(u32),
}
