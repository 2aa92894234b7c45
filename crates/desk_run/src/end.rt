//! How the run of a desk ends.

use order_desk::StartFault;
use pb_base::Fail;
use session::SessionEnd;

/// How the run of a desk ended.
#[derive(Debug, Drop)]
pub enum DeskEnd {
    /// The desk wasn't started, and nothing of the link was read or written.
    NotStarted(Fail<StartFault>),
    /// The link was served, and its session ended so.
    Served(SessionEnd),
}

/// A run that ended, and the keeper that it was given.
#[derive(Drop)]
pub struct DeskRun<P> {
    pub how: DeskEnd,
    pub keeper: P,
}
