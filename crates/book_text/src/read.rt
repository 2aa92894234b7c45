//! The book of a text.
ghost use Rattle.std.specs.Prelude.{◌≡◌, ◌≤◌, List, Ok, length};
ghost use Rattle.std.specs.Str.{is_utf8};
ghost use Rattle.pb_base.specs.Answers.{Answers, Gives};
ghost use Rattle.pb_base.specs.Results.{and_then};
ghost use Rattle.book_model.specs.Book.{IsBook};
ghost use Rattle.book_text.specs.BookText.{book_of, book_of_rows, book_behind};
ghost use Rattle.book_text.specs.PartialBook.{records_of, IsGrouped};
ghost use Rattle.pb_base.specs.declared.answer.Fail.{Fail};
ghost use Rattle.pb_base.specs.declared.limits.TheConstants.{MOST_TEXT_BYTES};
ghost use Rattle.book_text.specs.Records.{book_with, no_records};
ghost use Rattle.book_text.specs.Rows.{IsShort, Row};
ghost use Rattle.book_text.specs.FirstPass.{first_pass};
ghost use Rattle.book_text.specs.Said.{AreSaid, said_pass};

use crate::entry::{Heading, heading_of};
use crate::fault::{BookFault, BookKind};
use crate::names::Names;
use crate::partial_book::PartialBook;
use crate::row_reader::RowReader;
use crate::second_pass::second_pass;
use crate::survey::{Survey, first_pass};
use crate::text_row::TextRow;
use book_model::{Book, BookParts};
use pb_base::Fail;
use pb_base::limits::MOST_TEXT_BYTES;
use std::alloc::Global;

/// The book of a text, in the format that docs/BOOK-FORMAT.md describes, or its first fault in the order that is given there.
pub fn read_book(alloc: Global, text: &[u8]) -> Result<Book, Fail<BookFault>>
    ensures { Answers result (book_of text.now) }
{
    if text.len() > MOST_TEXT_BYTES {
        return Err(fault(0, BookKind::TooLarge));
    }
    if !is_text(text) {
        return Err(fault(0, BookKind::NotUtf8));
    }
    let mut rows = RowReader::of(alloc, text);
    book_of_rows(alloc, &mut rows)
}

/// Whether the bytes are UTF-8.
pub fn is_text(bytes: &[u8]) -> bool
    ensures { result ≡ is_utf8 bytes.now }
{
    match std::str::from_utf8(bytes) {
        Ok(_) => true,
        Err(_) => false,
    }
}

fn fault(row: u32, kind: BookKind) -> Fail<BookFault>
    ensures { result ≡ Fail.Refused (record { row = row; kind = kind }) }
{
    Fail::Refused(BookFault { row, kind })
}

// The book of its rows: the heading, and the two passes over the rows behind it.
fn book_of_rows(alloc: Global, rows: &mut RowReader<'_>) -> Result<Book, Fail<BookFault>>
    requires { length rows.old ≤ MOST_TEXT_BYTES }
    ensures { Answers result (book_of_rows rows.old) }
{
    let mut row = TextRow::new(alloc);
    if !rows.read(&mut row)? {
        return Err(fault(1, BookKind::NoBookRecord));
    }
    match heading_of(&row) {
        Ok(heading) => book_behind(alloc, heading, rows, &mut row),
        Err(kind) => Err(fault(1, kind)),
    }
}

// The book of a heading and the rows behind it, each read in place of the one that `row` holds.
fn book_behind<'t>(
    alloc: Global,
    heading: Heading,
    rows: &mut RowReader<'t>,
    row: &mut TextRow<'t>,
) -> Result<Book, Fail<BookFault>>
    requires count { length rows.old ≤ MOST_TEXT_BYTES }
    requires term { heading.term.from ≤ heading.term.until }
    ensures { Answers result (book_behind heading rows.old) }
{
    let survey = first_pass(alloc, &heading, rows, row)?;
    surveyed_book(alloc, heading, survey)
}

// The book of a heading and of what the first pass keeps of some rows.
fn surveyed_book(
    alloc: Global,
    heading: Heading,
    survey: Survey<'_>,
) -> Result<Book, Fail<BookFault>>
    requires term { heading.term.from ≤ heading.term.until }
    requires rows { (rows : List Row) × (length rows ≤ MOST_TEXT_BYTES) × (first_pass heading rows ≡ Ok survey.names)
        × AreSaid heading rows survey.entries.items survey.texts }
    requires short { IsShort survey.texts }
    ensures { Answers result
        (and_then (said_pass survey.entry.names 2 no_records survey.entry.entries.items survey.entry.texts)
        (λ records. Ok (book_with heading survey.entry.names records))) }
{
    let partial = second_pass(alloc, &survey)?;
    Ok(whole_book(heading, survey.names, partial))
}

fn whole_book(heading: Heading, names: Names, partial: PartialBook) -> Book
    requires book { IsBook (book_with heading names (records_of partial)) }
    requires grouped { IsGrouped (length partial.positions.items) partial }
    ensures { result ≡ book_with heading names (records_of partial) }
{
    Book::of(BookParts {
        name: heading.name,
        first: heading.term.from,
        last: heading.term.until,
        codes: names.codes,
        supplements: partial.supplements,
        constructs: partial.constructs,
        modules: partial.modules,
        positions: partial.positions,
        variants: partial.variants,
        groups: partial.groups,
    })
}
