//! The notes on positions of two books, a line each.

use crate::note_line::put_numbers;
use book_compare::CompareNote;
use pb_base::{Memory, Text};

/// Puts the end of a line that tells of a note behind a text. Of a set it says only that there is one.
pub fn put_compare(text: &mut Text, note: &CompareNote) -> Result<(), Memory> {
    text.put(b"compare ")?;
    match note {
        CompareNote::Finding { position, .. } => {
            text.put(b"differs ")?;
            text.put(position.bytes())?;
            text.put(b" with a set\n")
        }
        CompareNote::Undecided { position, learnt } => {
            text.put(b"undecided ")?;
            text.put(position.bytes())?;
            put_numbers(text, " after", &[learnt.len() as u64])
        }
    }
}
