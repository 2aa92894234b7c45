//! The notes on requirements, a line each.

use crate::note_line::put_numbers;
use kept_requirements::RequirementNote;
use pb_base::{Memory, Text};

/// Puts the end of a line that tells of a note behind a text. Of a car it says only that there is one.
pub fn put_requirement(text: &mut Text, note: &RequirementNote) -> Result<(), Memory> {
    text.put(b"requirement ")?;
    match note {
        RequirementNote::Fails {
            id,
            first,
            last,
            ..
        } => {
            text.put(b"fails ")?;
            text.put(id.bytes())?;
            put_numbers(text, "", &[u64::from(*first), u64::from(*last)])
        }
        RequirementNote::Idle { id } => {
            text.put(b"idle ")?;
            text.put(id.bytes())?;
            text.put(b"\n")
        }
        RequirementNote::Undecided { id, first, last } => {
            text.put(b"undecided ")?;
            text.put(id.bytes())?;
            put_numbers(text, "", &[u64::from(*first), u64::from(*last)])
        }
    }
}
