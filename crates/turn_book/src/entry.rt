//! What a history is made of.

/// A call that was made, its reply, and the machine after it. Only contracts make and read entries.
pub struct Entry<M, C, R> {
    pub call: C,
    pub reply: R,
    pub after: M,
}
