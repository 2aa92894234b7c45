//! The notes of a run, a line each.

use crate::change_line::put_change;
use crate::compare_line::put_compare;
use crate::requirement_line::put_requirement;
use crate::supplement_line::put_supplement;
use clausify::Question;
use commands::Note;
use desk_words::{put_book_fault, put_limit_fault, put_order_fault};
use pb_base::{Memory, Text, put_number};

/// Puts a line that tells of a note behind a text: its kind and its numbers, and of the learnt clauses how many they are. Of a
/// set it says only whether there is one.
pub fn put_note(text: &mut Text, note: &Note) -> Result<(), Memory> {
    text.put(b"note ")?;
    match note {
        Note::Text(fault) => put_book_fault(text, fault),
        Note::Order(fault) => put_order_fault(text, fault),
        Note::Rule(fault) => put_numbers(text, "rule", &[u64::from(fault.number())]),
        Note::Limit(fault) => put_limit_fault(text, fault),
        Note::Refused(rule) => put_numbers(text, "refused", &[u64::from(*rule)]),
        Note::Unfit { position, count } => {
            put_numbers(text, "unfit", &[u64::from(*position), u64::from(*count)])
        }
        Note::Finding {
            slice,
            question,
            set,
        } => {
            put_asked(text, "finding", *slice, question)?;
            text.put(if set.is_some() {
                b" with a set\n"
            } else {
                b"\n"
            })
        }
        Note::Spent {
            slice,
            question,
            learnt,
        } => {
            put_asked(text, "spent", *slice, question)?;
            put_numbers(text, " after", &[learnt.len() as u64])
        }
        Note::BadRow { table, place } => {
            put_numbers(text, "bad row", &[u64::from(*table), u64::from(*place)])
        }
        Note::Cert(fault) => put_numbers(text, "certificate", &[fault.line]),
        Note::Supplement(told) => put_supplement(text, told),
        Note::Compare(told) => put_compare(text, told),
        Note::Change(run) => put_change(text, run),
        Note::Requirement(told) => put_requirement(text, told),
        Note::Stated(fault) => put_numbers(
            text,
            "stated",
            &[u64::from(fault.row), u64::from(fault.kind.number())],
        ),
        Note::Left(learnt) => put_numbers(text, "left after", &[learnt.len() as u64]),
        Note::Count {
            which,
            before,
            after,
        } => put_numbers(text, "count", &[u64::from(which.number()), *before, *after]),
    }
}

/// Puts a word, numbers behind it, and the end of the line.
pub fn put_numbers(text: &mut Text, word: &str, numbers: &[u64]) -> Result<(), Memory> {
    text.put(word.as_bytes())?;
    for number in numbers {
        put_number(text, *number)?;
    }
    text.put(b"\n")
}

// The slice and the question of a note, by their places.
fn put_asked(text: &mut Text, word: &str, slice: u32, question: &Question) -> Result<(), Memory> {
    text.put(word.as_bytes())?;
    put_number(text, u64::from(slice))?;
    let (name, place) = match question {
        Question::Void => return text.put(b" void"),
        Question::Necessary(code) => (" necessary", *code),
        Question::Inadmissible(code) => (" inadmissible", *code),
        Question::Superfluous(variant) => (" superfluous", *variant),
        Question::Ambiguous { position, .. } => (" ambiguous", *position),
        Question::Uncovered(position) => (" uncovered", *position),
    };
    text.put(name.as_bytes())?;
    put_number(text, u64::from(place))
}
