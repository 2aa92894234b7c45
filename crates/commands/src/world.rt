//! The outside of a run.

use book_commands::RunLog;

/// All that a run is handed beside its words: what keeps the rows of its desk, and its channels.
#[derive(Drop)]
pub struct World<S, K, F, P, D> {
    pub keeper: P,
    pub channels: Channels<S, K, F, D>,
}

/// What a run reads from, what it writes to, where connections come from, and its log, which starts empty.
#[derive(Drop)]
pub struct Channels<S, K, F, D> {
    pub source: S,
    pub sink: K,
    pub files: F,
    pub door: D,
    pub log: RunLog,
}
