//! The rows of a text that has quotation marks, as `csv` reads them.
ghost use Rattle.std.specs.Prelude.{◌≡◌, ◌≤◌, true, IfOk, length};
ghost use Rattle.pb_base.specs.declared.limits.TheConstants.{MOST_TEXT_BYTES};
ghost use Rattle.csv.specs.Reading.{error_kind, stops_reader};
ghost use Rattle.csv.specs.Records.{fields_of};
ghost use Rattle.book_text.specs.Rows.{rows_of, IsNext, IsShort};

use csv::{ByteRecord, Error, ErrorKind, Reader, ReaderBuilder};
use pb_base::Memory;
use std::alloc::Global;
use std::marker::Model;

/// Reads a text row by row: no header row, and rows of any length. A contract sees the list of the rows that are left.
#[derive(Drop)]
pub struct CsvRows<'t> {
    reader: Reader<&'t [u8]>,
    // Whether a read found no further row, or failed.
    ended: bool,
}

impl<'t> Model for CsvRows<'t> {
    ghost use Rattle.book_text.specs.Rows.{Row};
    ghost use Rattle.std.specs.Prelude.{◌≡◌, List, [], false, if◌then◌else◌};

    ghost Value = { List Row };

    ghost use Rattle.book_text.specs.Unread.{unread_rows, IsReading};

    ghost view = { λ r. if r.ended then [] else unread_rows r.reader };

    ghost invariant = { λ r. r.ended ≡ false → IsReading r.reader };
}

impl<'t> CsvRows<'t> {
    /// All rows of a text.
    pub fn of(alloc: Global, text: &'t [u8]) -> CsvRows<'t>
        requires { length text.now ≤ MOST_TEXT_BYTES }
        ensures rows { result ≡ rows_of text.now }
        ensures count { length result ≤ length text.now }
    {
        let reader = ReaderBuilder::new()
            .has_headers(false)
            .flexible(true)
            .from_reader(alloc, text);
        CsvRows {
            reader,
            ended: false,
        }
    }

    /// Reads the next row in place of the one that `row` holds, and says whether there was one.
    pub fn read(&mut self, row: &mut ByteRecord) -> Result<bool, Memory>
        ensures next { IfOk result (λ found. IsNext found (fields_of row.new) self.old self.new) }
        ensures short { IfOk result (λ found. found ≡ true → IsShort (fields_of row.new)) }
    {
        if self.ended {
            return Ok(false);
        }
        // Until a row is found: a reader that failed is not asked again.
        self.ended = true;
        match self.reader.read_byte_record(row) {
            Ok(found) => {
                self.ended = !found;
                Ok(found)
            }
            Err(error) => Err(want_of_memory(&error)),
        }
    }
}

// What an error of reading a slice of bytes comes from. A slice gives no error of its own, and `Io` stands here only since the
// contract of `csv` can't say so; no row is too long or too short for the others, and none is asked to be text.
fn want_of_memory(error: &Error) -> Memory
    requires { stops_reader (error_kind error.now) ≡ true }
{
    match error.kind() {
        ErrorKind::OutOfMemory | ErrorKind::Io(_) => Memory,
        ErrorKind::UnequalLengths { .. }
        | ErrorKind::Utf8 { .. }
        | ErrorKind::Serialize(_)
        | ErrorKind::Deserialize { .. } => unreachable!(),
    }
}
