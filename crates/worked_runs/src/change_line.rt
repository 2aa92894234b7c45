//! What changes on a run of days, as a line.

use crate::note_line::put_numbers;
use book_changes::RunNotes;
use pb_base::{Memory, Text};

/// Puts the end of a line that tells of a run behind a text: its first and last day, and how many notes there are on cars that are
/// lost, on cars that are won, and on positions.
pub fn put_change(text: &mut Text, run: &RunNotes) -> Result<(), Memory> {
    let counts = [
        u64::from(run.days.first),
        u64::from(run.days.last),
        run.lost.len() as u64,
        run.won.len() as u64,
        run.differs.len() as u64,
    ];
    put_numbers(text, "change", &counts)
}
