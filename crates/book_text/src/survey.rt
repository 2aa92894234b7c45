//! The first pass over the rows: what each says by itself, and its name beside those before it.
ghost use Rattle.std.specs.Prelude.{◌≡◌, ◌≤◌, ◌++◌, ◌∷◌, [], Ok, IfOk, OnOk, length};
ghost use Rattle.pb_base.specs.declared.limits.TheConstants.{MOST_TEXT_BYTES};
ghost use Rattle.book_text.specs.Entry.{entry_of, text_of};
ghost use Rattle.pb_base.specs.Answers.{Gives, Leaves};
ghost use Rattle.book_text.specs.FirstPass.{entered_row, first_pass};
ghost use Rattle.book_text.specs.Pass.{pass};
ghost use Rattle.book_text.specs.Rows.{IsShort};
ghost use Rattle.book_text.specs.Said.{AreSaid};

use crate::entry::{Entry, Heading, entry_of};
use crate::fault::{BookFault, BookKind};
use crate::names::Names;
use crate::row_reader::RowReader;
use crate::text_row::TextRow;
use crate::texts::Texts;
use pb_base::{Fail, Memory};
use std::alloc::Global;

/// What the first pass keeps of the rows: the names, by which the second pass finds places, and what each row says.
#[derive(Drop)]
pub struct Survey<'t> {
    pub names: Names,
    /// The record of each row.
    pub entries: Vec<Entry>,
    /// The text beside each record: of its rule, or of a group's codes; an empty one where a record of the kind has neither.
    pub texts: Texts<'t>,
}

/// Reads the rows behind the heading, the first of which is row 2, each in place of the one that `row` holds.
pub fn first_pass<'t>(
    alloc: Global,
    heading: &Heading,
    rows: &mut RowReader<'t>,
    row: &mut TextRow<'t>,
) -> Result<Survey<'t>, Fail<BookFault>>
    requires { length rows.old ≤ MOST_TEXT_BYTES }
    ensures names { Gives result (λ s. s.names) (first_pass heading.now rows.old) }
    ensures said { IfOk result (λ s. AreSaid heading.now rows.old s.entries.items s.texts) }
    ensures short { IfOk result (λ s. IsShort s.texts) }
{
    let mut entries = Vec::with_capacity(alloc, rows.room())?;
    let mut names = Names::new(alloc);
    let mut texts = Texts::with_room(alloc, rows.room())?;
    enter_rows(&mut names, &mut entries, &mut texts, heading, rows, row)?;
    Ok(Survey {
        names,
        entries,
        texts,
    })
}

fn enter_rows<'t>(
    names: &mut Names,
    entries: &mut Vec<Entry>,
    texts: &mut Texts<'t>,
    heading: &Heading,
    rows: &mut RowReader<'t>,
    row: &mut TextRow<'t>,
) -> Result<(), Fail<BookFault>>
    requires count { length rows.old ≤ MOST_TEXT_BYTES }
    requires none { (entries.old.items ≡ []) × (texts.old ≡ []) }
    ensures names { Leaves result names.new (pass (entered_row heading.now) 2 names.old rows.old) }
    ensures said { OnOk result (AreSaid heading.now rows.old entries.new.items texts.new) }
    ensures short { OnOk result (IsShort texts.new) }
{
    'rows: while rows.read(row)? {
        match enter_row(names, heading, row) {
            Ok(entry) => {
                add_text(texts, &entry, row)?;
                entries.push(entry)?;
            }
            Err(Fail::Refused(kind)) => {
                let number = entries.len() as u32 + 2;
                return Err(Fail::Refused(BookFault { row: number, kind }));
            }
            Err(Fail::Memory) => return Err(Fail::Memory),
        }
    }
    Ok(())
}

// Adds the text that stands in a row beside its record.
fn add_text<'t>(texts: &mut Texts<'t>, entry: &Entry, row: &TextRow<'t>) -> Result<(), Memory>
    ensures { OnOk result (texts.new ≡ texts.old ++ text_of entry.now row.now ∷ []) }
{
    match entry {
        Entry::Supplement { .. } => texts.add(row, 4),
        Entry::Construct { .. } | Entry::Group { .. } => texts.add(row, 3),
        Entry::Variant { .. } => texts.add(row, 5),
        Entry::Code { .. } | Entry::Module { .. } | Entry::Position { .. } => texts.add_empty(),
    }
}

// The record of a row, whose name joins the others.
fn enter_row(
    names: &mut Names,
    heading: &Heading,
    row: &TextRow<'_>,
) -> Result<Entry, Fail<BookKind>>
    ensures names { Leaves result names.new (entered_row heading.now names.old row.now) }
    ensures entry { IfOk result (λ entry. entry_of heading.now row.now ≡ Ok entry) }
{
    match entry_of(heading, row) {
        Ok(entry) => {
            names.enter(&entry)?;
            Ok(entry)
        }
        Err(fault) => Err(Fail::Refused(fault)),
    }
}
