//! The notes on supplementing rules, a line each.

use crate::note_line::put_numbers;
use pb_base::{Memory, Text, put_number};
use supplement_findings::{SupplementNote, SupplementQuestion};

/// Puts the end of a line that tells of a note behind a text. Of a set it says only that there is one.
pub fn put_supplement(text: &mut Text, note: &SupplementNote) -> Result<(), Memory> {
    text.put(b"supplement")?;
    match note {
        SupplementNote::Days { first, last } => {
            put_numbers(text, " days", &[u64::from(*first), u64::from(*last)])
        }
        SupplementNote::Finding { question, .. } => {
            put_question(text, *question)?;
            text.put(b" with a set\n")
        }
        SupplementNote::Undecided { question, learnt } => {
            text.put(b" spent")?;
            put_question(text, *question)?;
            put_numbers(text, " after", &[learnt.len() as u64])
        }
    }
}

// A question, with the places of its rules.
fn put_question(text: &mut Text, question: SupplementQuestion) -> Result<(), Memory> {
    match question {
        SupplementQuestion::Breaks(place) => {
            text.put(b" breaks")?;
            put_number(text, u64::from(place))
        }
        SupplementQuestion::Swaps { first, second } => {
            text.put(b" swaps")?;
            put_number(text, u64::from(first))?;
            put_number(text, u64::from(second))
        }
    }
}
