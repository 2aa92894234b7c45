//! The text of a report on supplementing rules.
ghost use Rattle.std.specs.Prelude.{◌≡◌, ◌++◌, IfOk, OnOk};
ghost use Rattle.std.specs.List.{flat_map};
ghost use Rattle.supplement_findings.specs.SupplementText.{supplement_question_text, shown_text, left_text, supplement_note_text, end_text, supplement_text};

use crate::question::SupplementQuestion;
use crate::report::{SupplementNote, SupplementReport, findings_in};
use book_model::{Book, supplement_id};
use pb_base::{Body, CodeSet, Memory, Text, put_days, put_names, put_number};
use std::alloc::Global;

/// The notes, and `end` with the number of findings.
pub fn supplement_text(
    alloc: Global,
    book: &Book,
    report: &SupplementReport,
) -> Result<Body, Memory>
    ensures { IfOk result (λ text. text ≡ supplement_text book.now report.now) }
{
    let mut text = Text::new(alloc);
    put_notes(&mut text, book, report.as_slice())?;
    put_end(&mut text, findings_in(report))?;
    Ok(text.into_body())
}

fn put_notes(text: &mut Text, book: &Book, notes: &[SupplementNote]) -> Result<(), Memory>
    ensures { OnOk result (text.new ≡ text.old ++ flat_map (supplement_note_text book.now) notes.now) }
{
    for note in notes {
        put_note(text, book, note)?;
    }
    Ok(())
}

// The number of findings.
fn put_end(text: &mut Text, findings: u64) -> Result<(), Memory>
    ensures { OnOk result (text.new ≡ text.old ++ end_text findings) }
{
    text.put(b"end")?;
    put_number(text, findings)?;
    text.put(b"\n")
}

fn put_note(text: &mut Text, book: &Book, note: &SupplementNote) -> Result<(), Memory>
    ensures { OnOk result (text.new ≡ text.old ++ supplement_note_text book.now note.now) }
{
    match note {
        SupplementNote::Days { first, last } => put_days(text, *first, *last),
        SupplementNote::Finding { question, set } => put_shown(text, book, *question, set),
        SupplementNote::Undecided { question, learnt } => {
            put_left(text, book, *question, learnt.len() as u64)
        }
    }
}

// A finding, with the codes of the set that shows it.
fn put_shown(
    text: &mut Text,
    book: &Book,
    question: SupplementQuestion,
    set: &CodeSet,
) -> Result<(), Memory>
    ensures { OnOk result (text.new ≡ text.old ++ shown_text book.now question set.now) }
{
    put_question(text, book, question)?;
    text.put(b" with")?;
    put_names(text, book.codes(), set)?;
    text.put(b"\n")
}

// A question that was left after so many learnt clauses.
fn put_left(
    text: &mut Text,
    book: &Book,
    question: SupplementQuestion,
    learnt: u64,
) -> Result<(), Memory>
    ensures { OnOk result (text.new ≡ text.old ++ left_text book.now question learnt) }
{
    text.put(b"undecided ")?;
    put_question(text, book, question)?;
    text.put(b" after")?;
    put_number(text, learnt)?;
    text.put(b"\n")
}

fn put_question(text: &mut Text, book: &Book, question: SupplementQuestion) -> Result<(), Memory>
    ensures { OnOk result (text.new ≡ text.old ++ supplement_question_text book.now question) }
{
    match question {
        SupplementQuestion::Breaks(place) => {
            text.put(b"breaks ")?;
            text.put(supplement_id(book, place))
        }
        SupplementQuestion::Swaps { first, second } => {
            text.put(b"swaps ")?;
            text.put(supplement_id(book, first))?;
            text.put(b" ")?;
            text.put(supplement_id(book, second))
        }
    }
}
