//! What the tests of a token hang on, beside the number of nodes.

// What may come next, by the token before.
#[derive(Clone, Copy)]
pub(crate) enum Stage {
    /// At the start and behind `+`, `/`, `-` and `(`: a factor has to come.
    Awaiting,
    /// Behind a word and `)`: the text may go on or end.
    Complete,
    /// Behind `;`: nothing may come.
    Ended,
}

// What is pending at a place of a text.
#[derive(Clone, Copy, Default)]
pub(crate) enum Pending {
    /// A bracket that is not yet closed.
    #[default]
    Bracket,
    /// A minus sign whose factor is not yet whole.
    Sign,
}
