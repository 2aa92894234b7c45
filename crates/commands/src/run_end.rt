//! What a run gives back.

use book_commands::RunStatus;

/// The status with which the program ends, and the world that was handed in, as the run left it.
#[derive(Drop)]
pub struct RunEnd<W> {
    pub status: RunStatus,
    pub world: W,
}
