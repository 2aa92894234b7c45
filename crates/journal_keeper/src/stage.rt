//! How far a keeper has come with its file.

/// What a keeper knows of its file.
#[derive(Clone, Copy, Debug, PartialEq, Eq)]
pub enum Stage {
    /// No `begin` has answered Ok yet, or the last one found a file that is neither empty nor a journal.
    Shut,
    /// A `begin` in an empty store failed when the journal may have been there already. The store counts as empty.
    Late,
    /// The file is a journal, and this is the place of its last gate.
    Open {
        gate: u64,
        /// A put failed when its gate may have been opened already.
        in_doubt: bool,
    },
}
