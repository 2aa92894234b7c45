//! What became of the words of a run before anything waits.

use crate::run_end::RunEnd;
use command_words::Service;

/// What became of the words of a run before anything waits.
#[derive(Drop)]
pub enum Begun<W> {
    /// What they ask for was done.
    Ended(RunEnd<W>),
    /// They ask for this service, of which nothing was begun. The world is as it was.
    Awaited(Service, W),
}
