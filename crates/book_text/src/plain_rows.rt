//! The rows of a text that has no quotation mark. Commas alone part them.
ghost use Rattle.std.specs.Prelude.{◌≡◌, ◌≢◌, ◌≤◌, ◌<◌, ◌+◌, [], true, false, map, IfOk, length, drop, take, slice_index};
ghost use Rattle.csv.specs.Reading.{strip_bom};
ghost use Rattle.pb_base.specs.declared.limits.TheConstants.{MOST_TEXT_BYTES};
ghost use Rattle.book_text.specs.Plain.{HasNoQuote, IsLineEnd, IsRowRead, NoLineEnd, has_mark, plain_rows};
ghost use Rattle.book_text.specs.Rows.{IsNext, IsShort};

use crate::field_ends::field_end;
use pb_base::Memory;
use std::marker::Model;

/// Reads a text row by row. A contract sees the list of the rows that are left.
#[derive(Drop)]
pub struct PlainRows<'t> {
    rest: &'t [u8],
}

impl<'t> Model for PlainRows<'t> {
    ghost use Rattle.book_text.specs.Plain.{IsPlainText, plain_rows};
    ghost use Rattle.book_text.specs.Rows.{Row};
    ghost use Rattle.std.specs.Prelude.{List};

    ghost Value = { List Row };

    ghost view = { λ r. plain_rows r.rest.now };

    ghost invariant = { λ r. IsPlainText r.rest.now };
}

impl<'t> PlainRows<'t> {
    /// No rows.
    pub fn none() -> PlainRows<'t>
        ensures { result ≡ [] }
    {
        PlainRows { rest: &[] }
    }

    /// All rows of a text, behind a byte order mark if it has one.
    pub fn of(text: &'t [u8]) -> PlainRows<'t>
        requires few { length text.now ≤ MOST_TEXT_BYTES }
        requires plain { HasNoQuote text.now }
        ensures { result ≡ plain_rows (strip_bom text.now) }
    {
        PlainRows {
            rest: without_mark(text),
        }
    }

    /// Reads the fields of the next row in place of those that are there, and says whether there was one.
    pub fn read(&mut self, fields: &mut Vec<&'t [u8]>) -> Result<bool, Memory>
        ensures next { IfOk result (λ found. IsNext found (map (λ f. f.now) fields.new.items) self.old self.new) }
        ensures short { IfOk result (λ found. found ≡ true → IsShort (map (λ f. f.now) fields.new.items)) }
    {
        let text = from_next_row(self.rest);
        if text.is_empty() {
            return Ok(false);
        }
        fields.clear();
        self.rest = read_fields(text, fields)?;
        Ok(true)
    }
}

// The text behind a byte order mark, if it has one.
fn without_mark(text: &[u8]) -> &[u8]
    ensures { result.now ≡ strip_bom text.now }
{
    if !has_mark(text) {
        return text;
    }
    &text[3..]
}

fn has_mark(text: &[u8]) -> bool
    ensures value { result ≡ has_mark text.now }
    ensures within { result ≡ true → 3 ≤ length text.now }
{
    if text.len() < 3 {
        return false;
    }
    text[0] == 0xEF && text[1] == 0xBB && text[2] == 0xBF
}

// The text behind the line ends that it begins with.
fn from_next_row(text: &[u8]) -> &[u8]
    requires { HasNoQuote text.now }
    ensures rows { plain_rows result.now ≡ plain_rows text.now }
    ensures first { NoLineEnd result.now }
    ensures plain { HasNoQuote result.now }
    ensures fewer { length result.now ≤ length text.now }
{
    let mut rest = text;
    'blank: while begins_with_line_end(rest) {
        rest = behind_first(rest);
    }
    rest
}

fn begins_with_line_end(text: &[u8]) -> bool
    ensures line_end { result ≡ true → (0 < length text.now) × IsLineEnd (slice_index text.now 0) }
    ensures other { result ≡ false → NoLineEnd text.now }
{
    match text.first() {
        Some(byte) => *byte == b'\n' || *byte == b'\r',
        None => false,
    }
}

// The text behind its first byte.
fn behind_first(text: &[u8]) -> &[u8]
    requires { 0 < length text.now }
    ensures { result.now ≡ drop 1 text.now }
{
    &text[1..]
}

// Reads the fields of the row that a text begins with, and gives the text behind them.
fn read_fields<'t>(text: &'t [u8], fields: &mut Vec<&'t [u8]>) -> Result<&'t [u8], Memory>
    requires none { fields.old.items ≡ [] }
    requires some { 0 < length text.now }
    requires plain { HasNoQuote text.now }
    requires first { NoLineEnd text.now }
    ensures { IfOk result (λ rest. IsRowRead text.now (map (λ f. f.now) fields.new.items) rest.now) }
{
    let mut rest = text;
    let mut end = field_end(rest);
    'fields: while is_comma(rest, end) {
        fields.push(first_field(rest, end))?;
        rest = behind_field(rest, end);
        end = field_end(rest);
    }
    fields.push(first_field(rest, end))?;
    Ok(behind_field(rest, end))
}

// The field that ends here.
fn first_field(text: &[u8], end: usize) -> &[u8]
    requires { end ≤ length text.now }
    ensures { result.now ≡ take end text.now }
{
    &text[..end]
}

// Whether a comma stands at this place.
fn is_comma(text: &[u8], at: usize) -> bool
    ensures comma { result ≡ true → (at < length text.now) × (slice_index text.now at ≡ 44) }
    ensures other { result ≡ false → at < length text.now → slice_index text.now at ≢ 44 }
{
    match text.get(at) {
        Some(byte) => *byte == b',',
        None => false,
    }
}

// The text behind the field that ends here, and behind the byte that ends it.
fn behind_field(text: &[u8], end: usize) -> &[u8]
    requires { end ≤ length text.now }
    ensures line { end < length text.now → result.now ≡ drop (end + 1) text.now }
    ensures all { end ≡ length text.now → result.now ≡ drop end text.now }
{
    if end == text.len() {
        return &text[end..];
    }
    &text[end + 1..]
}
