//! The lines that tell what a comparison found.
ghost use Rattle.std.specs.Prelude.{◌≡◌, ◌++◌, IfOk, OnOk};
ghost use Rattle.std.specs.List.{list_any};
ghost use Rattle.book_compare.specs.CompareText.{is_finding, is_undecided, finding_line, undecided_line, note_line, findings_in, compare_text};

use crate::note::CompareNote;
use pb_base::{Body, CodeName, Memory, Text, put_number};
use std::alloc::Global;

/// `differs POSITION with CODES` or `undecided POSITION after N` for each note, and at the end `end` and the number of positions that
/// differ.
pub fn compare_text(alloc: Global, notes: &[CompareNote]) -> Result<Body, Memory>
    ensures { IfOk result (λ text. text ≡ compare_text notes.now) }
{
    let mut text = Text::new(alloc);
    for note in notes {
        put_note(&mut text, note)?;
    }
    text.put(b"end")?;
    put_number(&mut text, findings_in(notes) as u64)?;
    text.put(b"\n")?;
    Ok(text.into_body())
}

/// How many notes are findings.
pub fn findings_in(notes: &[CompareNote]) -> usize
    ensures { result ≡ findings_in notes.now }
{
    let mut count = 0;
    for note in notes {
        if is_finding(note) {
            count += 1;
        }
    }
    count
}

/// Whether some position differs.
pub fn any_finding(notes: &[CompareNote]) -> bool
    ensures { result ≡ list_any is_finding notes.now }
{
    notes.iter().any(|note| is_finding(note))
}

/// Whether some position was left undecided.
pub fn any_undecided(notes: &[CompareNote]) -> bool
    ensures { result ≡ list_any is_undecided notes.now }
{
    notes.iter().any(|note| is_undecided(note))
}

fn is_undecided(note: &CompareNote) -> bool
    ensures { result ≡ is_undecided note.now }
{
    match note {
        CompareNote::Finding { .. } => false,
        CompareNote::Undecided { .. } => true,
    }
}

fn is_finding(note: &CompareNote) -> bool
    ensures { result ≡ is_finding note.now }
{
    match note {
        CompareNote::Finding { .. } => true,
        CompareNote::Undecided { .. } => false,
    }
}

fn put_note(text: &mut Text, note: &CompareNote) -> Result<(), Memory>
    ensures { OnOk result (text.new ≡ text.old ++ note_line note.now) }
{
    match note {
        CompareNote::Finding { position, set } => {
            put_finding(text, position.bytes(), set.as_slice())
        }
        CompareNote::Undecided { position, learnt } => {
            put_undecided(text, position.bytes(), learnt.len() as u64)
        }
    }
}

fn put_finding(text: &mut Text, position: &[u8], names: &[CodeName]) -> Result<(), Memory>
    ensures { OnOk result (text.new ≡ text.old ++ finding_line position.now names.now) }
{
    text.put(b"differs ")?;
    text.put(position)?;
    text.put(b" with")?;
    for name in names {
        text.put(b" ")?;
        text.put(name.bytes())?;
    }
    text.put(b"\n")
}

fn put_undecided(text: &mut Text, position: &[u8], learnt: u64) -> Result<(), Memory>
    ensures { OnOk result (text.new ≡ text.old ++ undecided_line position.now learnt) }
{
    text.put(b"undecided ")?;
    text.put(position)?;
    text.put(b" after")?;
    put_number(text, learnt)?;
    text.put(b"\n")
}
