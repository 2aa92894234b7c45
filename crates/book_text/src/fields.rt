//! The fields of a row, each read by its form.
ghost use Rattle.std.specs.Prelude.{◌≡◌};
ghost use Rattle.book_text.specs.Fields.{name_in, code_name_in, code_or_star_in, part_in, module_in, is_mandatory_in, group_kind_in, form_in, number_in, day_in, day_or, term_of, days_in, field, is_width};

use crate::fault::BookKind;
use crate::text_row::TextRow;
use pb_base::limits::LAST_DAY;
use pb_base::{CodeName, Id, Part, short_number};

/// A span of days: the term of a book, or the days on which a record is active. Both ends belong to it.
#[derive(Clone, Copy)]
pub struct Days {
    pub from: u32,
    pub until: u32,
}

/// The form of a book's text. Groups of codes come with the second.
#[derive(Clone, Copy)]
pub enum Form {
    One,
    Two,
}

/// What a group demands: that exactly one of its codes is present, or at most one.
#[derive(Clone, Copy)]
pub enum GroupKind {
    One,
    Most,
}

/// The field at a place, counted from 0; an empty one where the row ends before it.
pub fn field<'r>(row: &'r TextRow<'_>, place: usize) -> &'r [u8]
    ensures { result.now ≡ field row.now place }
{
    match row.get(place) {
        Some(text) => text,
        None => &[],
    }
}

/// Whether the row has this many fields, and nothing but empty ones behind them.
pub fn is_width(row: &TextRow<'_>, width: usize) -> bool
    ensures { result ≡ is_width width row.now }
{
    if row.len() < width {
        return false;
    }
    for place in width..row.len() {
        if !field(row, place).is_empty() {
            return false;
        }
    }
    true
}

pub fn name_in(text: &[u8]) -> Result<Id, BookKind>
    ensures { result ≡ name_in text.now }
{
    match Id::of(text) {
        Some(name) => Ok(name),
        None => Err(BookKind::BadName),
    }
}

pub fn code_name_in(text: &[u8]) -> Result<CodeName, BookKind>
    ensures { result ≡ code_name_in text.now }
{
    match CodeName::of(text) {
        Some(name) => Ok(name),
        None => Err(BookKind::BadName),
    }
}

/// A code, or None for `*`.
pub fn code_or_star_in(text: &[u8]) -> Result<Option<CodeName>, BookKind>
    ensures { result ≡ code_or_star_in text.now }
{
    if text == b"*".as_slice() {
        return Ok(None);
    }
    let name = code_name_in(text)?;
    Ok(Some(name))
}

pub fn part_in(text: &[u8]) -> Result<Part, BookKind>
    ensures { result ≡ part_in text.now }
{
    match Part::of(text) {
        Some(part) => Ok(part),
        None => Err(BookKind::BadName),
    }
}

/// A module, or None for the empty field of a position that stands in none.
pub fn module_in(text: &[u8]) -> Result<Option<Id>, BookKind>
    ensures { result ≡ module_in text.now }
{
    if text.is_empty() {
        return Ok(None);
    }
    let name = name_in(text)?;
    Ok(Some(name))
}

pub fn is_mandatory_in(text: &[u8]) -> Result<bool, BookKind>
    ensures { result ≡ is_mandatory_in text.now }
{
    if text == b"mandatory".as_slice() {
        Ok(true)
    } else if text == b"optional".as_slice() {
        Ok(false)
    } else {
        Err(BookKind::BadName)
    }
}

pub fn group_kind_in(text: &[u8]) -> Result<GroupKind, BookKind>
    ensures { result ≡ group_kind_in text.now }
{
    if text == b"one".as_slice() {
        Ok(GroupKind::One)
    } else if text == b"most".as_slice() {
        Ok(GroupKind::Most)
    } else {
        Err(BookKind::BadName)
    }
}

/// The form of a book, which is the first for an empty field.
pub fn form_in(text: &[u8]) -> Result<Form, BookKind>
    ensures { result ≡ form_in text.now }
{
    if text.is_empty() || text == b"1".as_slice() {
        Ok(Form::One)
    } else if text == b"2".as_slice() {
        Ok(Form::Two)
    } else {
        Err(BookKind::BadNumber)
    }
}

/// A number of 1 to 5 digits from `low` to `high`.
pub fn number_in(low: u32, high: u32, text: &[u8]) -> Result<u32, BookKind>
    ensures { result ≡ number_in low high text.now }
{
    match short_number(text) {
        Some(value) if low <= value && value <= high => Ok(value),
        _ => Err(BookKind::BadNumber),
    }
}

pub fn day_in(text: &[u8]) -> Result<u32, BookKind>
    ensures { result ≡ day_in text.now }
{
    number_in(1, LAST_DAY, text)
}

/// A day, or the other day for an empty field.
pub fn day_or(other: u32, text: &[u8]) -> Result<u32, BookKind>
    ensures { result ≡ day_or other text.now }
{
    if text.is_empty() {
        return Ok(other);
    }
    day_in(text)
}

/// The term of a book with these days.
pub fn term_of(from: u32, until: u32) -> Result<Days, BookKind>
    ensures { result ≡ term_of from until }
{
    if until < from {
        return Err(BookKind::BadDays);
    }
    Ok(Days { from, until })
}

/// The days of a record in a book of this term: an empty field takes the term's day.
pub fn days_in(term: Days, first: &[u8], last: &[u8]) -> Result<Days, BookKind>
    ensures { result ≡ days_in term first.now last.now }
{
    let from = day_or(term.from, first)?;
    let until = day_or(term.until, last)?;
    if !first.is_empty() && !last.is_empty() && until < from {
        return Err(BookKind::BadDays);
    }
    Ok(Days { from, until })
}
