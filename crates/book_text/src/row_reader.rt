//! Reads the rows of a book's text one at a time, as `csv` reads them.
ghost use Rattle.std.specs.Prelude.{◌≡◌, ◌≤◌, [], true, IfOk, length};
ghost use Rattle.pb_base.specs.declared.limits.TheConstants.{MOST_TEXT_BYTES};
ghost use Rattle.book_text.specs.Rows.{rows_of, IsNext, IsShort};

use crate::csv_rows::CsvRows;
use crate::plain_rows::PlainRows;
use crate::text_row::TextRow;
use memchr::memchr;
use pb_base::Memory;
use std::alloc::Global;
use std::marker::Model;

/// Reads a text row by row: no header row, and rows of any length. A contract sees the list of the rows that are left.
/// A text without a quotation mark is parted by its commas alone, and `csv` reads any other.
#[derive(Drop)]
pub struct RowReader<'t> {
    plain: PlainRows<'t>,
    quoted: Option<CsvRows<'t>>,
    // About how many rows the text has.
    room: usize,
}

// A row of a book has some 40 bytes. Few books have rows that are shorter on average than this.
const ROW_BYTES: usize = 32;

impl<'t> Model for RowReader<'t> {
    ghost use Rattle.book_text.specs.Rows.{Row};
    ghost use Rattle.book_text.specs.Unread.{rows_left};
    ghost use Rattle.std.specs.Prelude.{List};

    ghost Value = { List Row };

    ghost view = { λ r. rows_left r.plain r.quoted };
}

impl<'t> RowReader<'t> {
    /// All rows of a text.
    pub fn of(alloc: Global, text: &'t [u8]) -> RowReader<'t>
        requires { length text.now ≤ MOST_TEXT_BYTES }
        ensures rows { result ≡ rows_of text.now }
        ensures count { length result ≤ length text.now }
    {
        let room = text.len() / ROW_BYTES;
        match memchr(b'"', text) {
            Some(_) => RowReader {
                plain: PlainRows::none(),
                quoted: Some(CsvRows::of(alloc, text)),
                room,
            },
            None => RowReader {
                plain: PlainRows::of(text),
                quoted: None,
                room,
            },
        }
    }

    /// About how many rows the text has.
    pub fn room(&self) -> usize {
        self.room
    }

    /// Reads the next row in place of the one that `row` holds, and says whether there was one.
    pub fn read(&mut self, row: &mut TextRow<'t>) -> Result<bool, Memory>
        ensures next { IfOk result (λ found. IsNext found row.new self.old self.new) }
        ensures short { IfOk result (λ found. found ≡ true → IsShort row.new) }
    {
        if let Some(rows) = &mut self.quoted {
            return read_record(rows, row);
        }
        read_parted(&mut self.plain, row)
    }
}

fn read_record<'t>(rows: &mut CsvRows<'t>, row: &mut TextRow<'t>) -> Result<bool, Memory>
    ensures next { IfOk result (λ found. IsNext found row.new rows.old rows.new) }
    ensures short { IfOk result (λ found. found ≡ true → IsShort row.new) }
{
    let found = rows.read(&mut row.quoted)?;
    row.is_quoted = true;
    Ok(found)
}

fn read_parted<'t>(rows: &mut PlainRows<'t>, row: &mut TextRow<'t>) -> Result<bool, Memory>
    ensures next { IfOk result (λ found. IsNext found row.new rows.old rows.new) }
    ensures short { IfOk result (λ found. found ≡ true → IsShort row.new) }
{
    let found = rows.read(&mut row.parted)?;
    row.is_quoted = false;
    Ok(found)
}
