//! The limits of a message.

/// The most bytes of a head, with the line ends in front of it.
pub const MOST_HEAD_BYTES: usize = 16_384;

/// The most lines between the request line of a head and the empty line that ends it.
pub const MOST_FIELD_LINES: usize = 64;
