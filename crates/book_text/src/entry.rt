//! What a row says by itself: the record of its kind, with names in place of what they stand for. The text of a rule, or of a group's codes, stands beside it.
ghost use Rattle.std.specs.Prelude.{◌≡◌};
ghost use Rattle.book_text.specs.Entry.{heading_of, entry_of, code_in, supplement_in, construct_in, group_in, module_record_in, position_in, variant_in};

use crate::fault::BookKind;
use crate::fields::{
    Days, Form, GroupKind, code_name_in, code_or_star_in, day_in, days_in, field, form_in,
    group_kind_in, is_mandatory_in, is_width, module_in, name_in, number_in, part_in, term_of,
};
use crate::group::is_group;
use crate::kind::{Kind, kind_of};
use crate::text_row::TextRow;
use pb_base::{CodeName, Id, Part};

/// What the `book` record says.
#[derive(Clone, Copy)]
pub struct Heading {
    pub name: Id,
    pub term: Days,
    pub form: Form,
}

/// A record other than the `book` record.
#[derive(Clone, Copy)]
pub enum Entry {
    Code {
        name: CodeName,
    },
    Supplement {
        id: Id,
        rank: u32,
        code: CodeName,
        days: Days,
    },
    Construct {
        id: Id,
        on: Option<CodeName>,
        days: Days,
    },
    Group {
        id: Id,
        kind: GroupKind,
        days: Days,
    },
    Module {
        id: Id,
    },
    Position {
        id: Id,
        group: Option<Id>,
        mandatory: bool,
        days: Days,
    },
    Variant {
        id: Id,
        position: Id,
        part: Part,
        quantity: u32,
        days: Days,
    },
}

/// The heading that the first row of a book has to be.
pub fn heading_of(row: &TextRow<'_>) -> Result<Heading, BookKind>
    ensures { result ≡ heading_of row.now }
{
    match kind_of(field(row, 0)) {
        Some(Kind::Book) => {}
        _ => return Err(BookKind::NoBookRecord),
    }
    if !is_width(row, 4) && !is_width(row, 5) {
        return Err(BookKind::FieldCount);
    }
    let name = name_in(field(row, 1))?;
    let from = day_in(field(row, 2))?;
    let until = day_in(field(row, 3))?;
    let form = form_in(field(row, 4))?;
    let term = term_of(from, until)?;
    Ok(Heading { name, term, form })
}

/// The record of a further row, in a book of this heading.
pub fn entry_of(heading: &Heading, row: &TextRow<'_>) -> Result<Entry, BookKind>
    ensures { result ≡ entry_of heading.now row.now }
{
    let term = heading.term;
    match kind_of(field(row, 0)) {
        None => Err(BookKind::UnknownKind),
        Some(Kind::Book) => Err(BookKind::SecondBookRecord),
        Some(Kind::Code) => code_in(row),
        Some(Kind::Supplement) => supplement_in(term, row),
        Some(Kind::Construct) => construct_in(term, row),
        Some(Kind::Group) => match heading.form {
            Form::One => Err(BookKind::UnknownKind),
            Form::Two => group_in(term, row),
        },
        Some(Kind::Module) => module_record_in(row),
        Some(Kind::Position) => position_in(term, row),
        Some(Kind::Variant) => variant_in(term, row),
    }
}

fn code_in(row: &TextRow<'_>) -> Result<Entry, BookKind>
    ensures { result ≡ code_in row.now }
{
    if !is_width(row, 3) {
        return Err(BookKind::FieldCount);
    }
    let name = code_name_in(field(row, 1))?;
    Ok(Entry::Code { name })
}

fn supplement_in(term: Days, row: &TextRow<'_>) -> Result<Entry, BookKind>
    ensures { result ≡ supplement_in term row.now }
{
    if !is_width(row, 7) {
        return Err(BookKind::FieldCount);
    }
    let id = name_in(field(row, 1))?;
    let rank = number_in(0, 9_999, field(row, 2))?;
    let code = code_name_in(field(row, 3))?;
    let days = days_in(term, field(row, 5), field(row, 6))?;
    Ok(Entry::Supplement {
        id,
        rank,
        code,
        days,
    })
}

fn construct_in(term: Days, row: &TextRow<'_>) -> Result<Entry, BookKind>
    ensures { result ≡ construct_in term row.now }
{
    if !is_width(row, 6) {
        return Err(BookKind::FieldCount);
    }
    let id = name_in(field(row, 1))?;
    let on = code_or_star_in(field(row, 2))?;
    let days = days_in(term, field(row, 4), field(row, 5))?;
    Ok(Entry::Construct { id, on, days })
}

fn group_in(term: Days, row: &TextRow<'_>) -> Result<Entry, BookKind>
    ensures { result ≡ group_in term row.now }
{
    if !is_width(row, 6) {
        return Err(BookKind::FieldCount);
    }
    let id = name_in(field(row, 1))?;
    let kind = group_kind_in(field(row, 2))?;
    if !is_group(field(row, 3)) {
        return Err(BookKind::BadName);
    }
    let days = days_in(term, field(row, 4), field(row, 5))?;
    Ok(Entry::Group { id, kind, days })
}

fn module_record_in(row: &TextRow<'_>) -> Result<Entry, BookKind>
    ensures { result ≡ module_record_in row.now }
{
    if !is_width(row, 3) {
        return Err(BookKind::FieldCount);
    }
    let id = name_in(field(row, 1))?;
    Ok(Entry::Module { id })
}

fn position_in(term: Days, row: &TextRow<'_>) -> Result<Entry, BookKind>
    ensures { result ≡ position_in term row.now }
{
    if !is_width(row, 6) {
        return Err(BookKind::FieldCount);
    }
    let id = name_in(field(row, 1))?;
    let group = module_in(field(row, 2))?;
    let mandatory = is_mandatory_in(field(row, 3))?;
    let days = days_in(term, field(row, 4), field(row, 5))?;
    Ok(Entry::Position {
        id,
        group,
        mandatory,
        days,
    })
}

fn variant_in(term: Days, row: &TextRow<'_>) -> Result<Entry, BookKind>
    ensures { result ≡ variant_in term row.now }
{
    if !is_width(row, 8) {
        return Err(BookKind::FieldCount);
    }
    let id = name_in(field(row, 1))?;
    let position = name_in(field(row, 2))?;
    let part = part_in(field(row, 3))?;
    let quantity = number_in(1, 999, field(row, 4))?;
    let days = days_in(term, field(row, 6), field(row, 7))?;
    Ok(Entry::Variant {
        id,
        position,
        part,
        quantity,
        days,
    })
}
