//! The texts beside the records of a book.
ghost use Rattle.std.specs.Prelude.{◌≡◌, ◌++◌, ◌∷◌, [], IfOk, OnOk};
ghost use Rattle.csv.specs.Records.{fields_of, partial_of};
ghost use Rattle.book_text.specs.Fields.{field};

use crate::fields::field;
use crate::text_row::TextRow;
use csv::ByteRecord;
use pb_base::Memory;
use std::alloc::Global;
use std::marker::Model;

/// Texts, each under its place, counted from 0. A contract sees the list of them.
#[derive(Drop)]
pub struct Texts<'t> {
    // The first of them, as they stand in the book's own text.
    parts: Vec<&'t [u8]>,
    // Copies of all others, in one buffer.
    copies: ByteRecord,
}

impl<'t> Model for Texts<'t> {
    ghost use Rattle.book_text.specs.Rows.{Row};
    ghost use Rattle.std.specs.Prelude.{◌≡◌, ◌++◌, [], map};
    ghost use Rattle.csv.specs.Records.{fields_of, partial_of};

    ghost Value = { Row };

    ghost view = { λ t. map (λ f. f.now) t.parts.items ++ fields_of t.copies };

    ghost invariant = { λ t. partial_of t.copies ≡ [] };
}

impl<'t> Texts<'t> {
    /// No texts, and room for so many that stand in the book's own text.
    pub fn with_room(alloc: Global, room: usize) -> Result<Texts<'t>, Memory>
        ensures { IfOk result (λ t. t ≡ []) }
    {
        let parts = Vec::with_capacity(alloc, room)?;
        Ok(Texts {
            parts,
            copies: ByteRecord::new(alloc),
        })
    }

    /// Adds the field of a row, which is an empty text where the row ends before it.
    pub fn add(&mut self, row: &TextRow<'t>, place: usize) -> Result<(), Memory>
        ensures { OnOk result (self.new ≡ self.old ++ field row.now place ∷ []) }
    {
        match row.part(place) {
            Some(text) => self.add_part(text),
            None => add_copy(&mut self.copies, field(row, place)),
        }
    }

    /// Adds an empty text.
    pub fn add_empty(&mut self) -> Result<(), Memory>
        ensures { OnOk result (self.new ≡ self.old ++ [] ∷ []) }
    {
        self.add_part(&[])
    }

    // Adds what stands in the book's own text.
    fn add_part(&mut self, text: &'t [u8]) -> Result<(), Memory>
        ensures { OnOk result (self.new ≡ self.old ++ text.now ∷ []) }
    {
        if self.copies.is_empty() {
            self.parts.push(text)?;
            return Ok(());
        }
        add_copy(&mut self.copies, text)
    }

    /// The text at a place; an empty one behind the last.
    pub fn get(&self, place: usize) -> &[u8]
        ensures { result.now ≡ field self.now place }
    {
        match self.parts.get(place) {
            Some(text) => *text,
            None => copy_at(&self.copies, place - self.parts.len()),
        }
    }
}

// Adds a copy of a text. On want of memory nothing is left of the others.
fn add_copy(copies: &mut ByteRecord, text: &[u8]) -> Result<(), Memory>
    requires { partial_of copies.old ≡ [] }
    ensures fields { OnOk result (fields_of copies.new ≡ fields_of copies.old ++ text.now ∷ []) }
    ensures whole { partial_of copies.new ≡ [] }
{
    match copies.push_field(text) {
        Ok(()) => Ok(()),
        Err(error) => {
            copies.clear();
            Err(Memory::from(error))
        }
    }
}

fn copy_at(copies: &ByteRecord, place: usize) -> &[u8]
    ensures { result.now ≡ field (fields_of copies.now) place }
{
    match copies.get(place) {
        Some(text) => text,
        None => &[],
    }
}
