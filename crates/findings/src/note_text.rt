//! The lines of a report's notes.
ghost use Rattle.std.specs.Prelude.{◌≡◌, ◌++◌, OnOk};
ghost use Rattle.findings.specs.ReportText.{set_text, finding_text, undecided_text, note_text};
ghost use Rattle.pb_base.specs.Lines.{days_text};

use crate::question_text::put_question;
use crate::report::Note;
use book_model::Book;
use clausify::Question;
use pb_base::{CodeSet, Memory, Text, put_days, put_names, put_number};

pub(crate) fn put_note(text: &mut Text, book: &Book, note: &Note) -> Result<(), Memory>
    ensures { OnOk result (text.new ≡ text.old ++ note_text book.now note.now) }
{
    match note {
        Note::Days { first, last } => put_days(text, *first, *last),
        Note::Finding { question, set } => put_finding(text, book, *question, set),
        Note::Undecided { question, learnt } => {
            put_undecided(text, book, *question, learnt.len() as u64)
        }
    }
}

fn put_finding(
    text: &mut Text,
    book: &Book,
    question: Question,
    set: &Option<CodeSet>,
) -> Result<(), Memory>
    ensures { OnOk result (text.new ≡ text.old ++ finding_text book.now question set.now) }
{
    put_question(text, book, question)?;
    put_set(text, book, set)?;
    text.put(b"\n")
}

// The codes of the set that shows a finding.
fn put_set(text: &mut Text, book: &Book, set: &Option<CodeSet>) -> Result<(), Memory>
    ensures { OnOk result (text.new ≡ text.old ++ set_text book.now set.now) }
{
    match set {
        Some(set) => {
            text.put(b" with")?;
            put_names(text, book.codes(), set)
        }
        None => Ok(()),
    }
}

// A question that was left after so many learnt clauses.
fn put_undecided(
    text: &mut Text,
    book: &Book,
    question: Question,
    learnt: u64,
) -> Result<(), Memory>
    ensures { OnOk result (text.new ≡ text.old ++ undecided_text book.now question learnt) }
{
    text.put(b"undecided ")?;
    put_question(text, book, question)?;
    text.put(b" after")?;
    put_number(text, learnt)?;
    text.put(b"\n")
}
