//! How a run of many workers ends.

use crate::work_end::WorkEnd;
use keeper::Keeper;
use order_desk::Desk;
use pb_outside::OutError;
use session::SessionEnd;

/// How a run of many workers ended.
#[derive(Clone, Copy, Debug, PartialEq, Eq)]
pub enum ServeEnd {
    /// The door gave no ports.
    Closed(OutError),
    /// There was no memory for the workers. All ports came back unused.
    NoWorkers,
    /// All workers ended, and this end tells least of their ports: all are over; each is over or has failed; or for some
    /// there was no memory.
    Worked(WorkEnd),
}

/// A run that ended, with the desk as it is then. Of the sessions in which a link failed it has the ends for which there
/// was memory, port by port.
pub struct Served<P: Keeper> {
    pub how: ServeEnd,
    pub desk: Desk<P>,
    pub faults: Vec<Vec<SessionEnd>>,
}
