//! The lines of notes.
ghost use Rattle.std.specs.Prelude.{◌≡◌, ◌++◌, IfOk, OnOk};
ghost use Rattle.std.specs.List.{flat_map};
ghost use Rattle.kept_requirements.specs.NotesText.{fails_text, note_text, undecided_text, requirement_text, end_text};

use crate::note::{RequirementNote, failing};
use book_model::Book;
use pb_base::{Body, CodeSet, Day, Id, Memory, Text, put_names, put_number};
use std::alloc::Global;

/// A line for each note, `fails ID FIRST LAST with CODE ..`, `idle ID` or `undecided ID FIRST LAST after N`, where N is the budget;
/// and `end N`, where N is how many requirements fail.
pub fn requirement_text(
    alloc: Global,
    book: &Book,
    budget: u32,
    notes: &[RequirementNote],
) -> Result<Body, Memory>
    ensures { IfOk result (λ text. text ≡ requirement_text book.now budget notes.now) }
{
    let mut text = Text::new(alloc);
    put_notes(&mut text, book, budget, notes)?;
    put_end(&mut text, failing(notes))?;
    Ok(text.into_body())
}

fn put_notes(
    text: &mut Text,
    book: &Book,
    budget: u32,
    notes: &[RequirementNote],
) -> Result<(), Memory>
    ensures { OnOk result (text.new ≡ text.old ++ flat_map (note_text book.now budget) notes.now) }
{
    for note in notes {
        put_note(text, book, budget, note)?;
    }
    Ok(())
}

fn put_note(text: &mut Text, book: &Book, budget: u32, note: &RequirementNote) -> Result<(), Memory>
    ensures { OnOk result (text.new ≡ text.old ++ note_text book.now budget note.now) }
{
    match note {
        RequirementNote::Fails {
            id,
            first,
            last,
            car,
        } => put_fails(text, book, id, *first, *last, car),
        RequirementNote::Idle { id } => {
            text.put(b"idle ")?;
            text.put(id.bytes())?;
            text.put(b"\n")
        }
        RequirementNote::Undecided { id, first, last } => {
            put_undecided(text, budget, id, *first, *last)
        }
    }
}

fn put_fails(
    text: &mut Text,
    book: &Book,
    id: &Id,
    first: Day,
    last: Day,
    car: &CodeSet,
) -> Result<(), Memory>
    ensures { OnOk result (text.new ≡ text.old ++ fails_text book.now id.now first last car.now) }
{
    text.put(b"fails ")?;
    text.put(id.bytes())?;
    put_number(text, u64::from(first))?;
    put_number(text, u64::from(last))?;
    text.put(b" with")?;
    put_names(text, book.codes(), car)?;
    text.put(b"\n")
}

fn put_undecided(text: &mut Text, budget: u32, id: &Id, first: Day, last: Day) -> Result<(), Memory>
    ensures { OnOk result (text.new ≡ text.old ++ undecided_text budget id.now first last) }
{
    text.put(b"undecided ")?;
    text.put(id.bytes())?;
    put_number(text, u64::from(first))?;
    put_number(text, u64::from(last))?;
    text.put(b" after")?;
    put_number(text, u64::from(budget))?;
    text.put(b"\n")
}

fn put_end(text: &mut Text, failing: u64) -> Result<(), Memory>
    ensures { OnOk result (text.new ≡ text.old ++ end_text failing) }
{
    text.put(b"end")?;
    put_number(text, failing)?;
    text.put(b"\n")
}
