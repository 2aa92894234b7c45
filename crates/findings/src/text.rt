//! The text of a report.
ghost use Rattle.std.specs.Prelude.{◌≡◌, ◌++◌, IfOk, OnOk};
ghost use Rattle.std.specs.List.{flat_map};
ghost use Rattle.findings.specs.ReportText.{book_line, note_text, verdict_text, report_text};

use crate::note_text::put_note;
use crate::report::{Note, Report, Verdict, verdict_of};
use book_model::Book;
use pb_base::{Body, Memory, Text, put_number};
use std::alloc::Global;

/// `book NAME FIRST LAST`, the notes, and `end releasable`, `end blocked` or `end undecided`.
pub fn report_text(alloc: Global, book: &Book, report: &Report) -> Result<Body, Memory>
    ensures { IfOk result (λ text. text ≡ report_text book.now report.now) }
{
    let mut text = Text::new(alloc);
    put_book(&mut text, book)?;
    put_notes(&mut text, book, report.as_slice())?;
    text.put(verdict_text(verdict_of(report)))?;
    Ok(text.into_body())
}

fn put_book(text: &mut Text, book: &Book) -> Result<(), Memory>
    ensures { OnOk result (text.new ≡ text.old ++ book_line book.now) }
{
    let term = book.term();
    text.put(b"book ")?;
    text.put(book.name().bytes())?;
    put_number(text, u64::from(term.first))?;
    put_number(text, u64::from(term.last))?;
    text.put(b"\n")
}

fn put_notes(text: &mut Text, book: &Book, notes: &[Note]) -> Result<(), Memory>
    ensures { OnOk result (text.new ≡ text.old ++ flat_map (note_text book.now) notes.now) }
{
    for note in notes {
        put_note(text, book, note)?;
    }
    Ok(())
}

fn verdict_text(verdict: Verdict) -> &'static [u8]
    ensures { result.now ≡ verdict_text verdict }
{
    match verdict {
        Verdict::Releasable => b"end releasable\n",
        Verdict::Blocked => b"end blocked\n",
        Verdict::Undecided => b"end undecided\n",
    }
}
