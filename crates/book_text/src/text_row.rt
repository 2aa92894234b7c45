//! One row of a book's text.
ghost use Rattle.std.specs.Prelude.{◌≡◌, [], IfSome, length};
ghost use Rattle.std.specs.Option.{option_map};
ghost use Rattle.csv.specs.Records.{field_at};
ghost use Rattle.book_text.specs.Fields.{field};

use csv::ByteRecord;
use std::alloc::Global;
use std::marker::Model;

/// A row, whose room serves the next one too. A contract sees its fields.
#[derive(Drop)]
pub struct TextRow<'t> {
    // The fields where commas alone part them, as they stand in the text.
    pub(crate) parted: Vec<&'t [u8]>,
    // The row where `csv` read it.
    pub(crate) quoted: ByteRecord,
    pub(crate) is_quoted: bool,
}

impl<'t> Model for TextRow<'t> {
    ghost use Rattle.book_text.specs.Rows.{Row};
    ghost use Rattle.book_text.specs.Unread.{fields_in};

    ghost Value = { Row };

    ghost view = { λ r. fields_in r.is_quoted r.parted.items r.quoted };
}

impl<'t> TextRow<'t> {
    /// A row of no field. It takes no memory.
    pub fn new(alloc: Global) -> TextRow<'t>
        ensures { result ≡ [] }
    {
        TextRow {
            parted: Vec::new(alloc),
            quoted: ByteRecord::new(alloc),
            is_quoted: false,
        }
    }

    /// How many fields there are.
    pub fn len(&self) -> usize
        ensures { result ≡ length self.now }
    {
        if self.is_quoted {
            return self.quoted.len();
        }
        self.parted.len()
    }

    /// The field at a place, where commas alone part the row: as it stands in the text. None for one that `csv` read.
    #[inline(always)]
    pub fn part(&self, place: usize) -> Option<&'t [u8]>
        ensures { IfSome result (λ text. text.now ≡ field self.now place) }
    {
        if self.is_quoted {
            return None;
        }
        match self.parted.get(place) {
            Some(text) => Some(*text),
            None => None,
        }
    }

    /// The field at a place, counted from 0.
    pub fn get(&self, place: usize) -> Option<&[u8]>
        ensures { option_map (λ text. text.now) result ≡ field_at self.now place }
    {
        if self.is_quoted {
            return self.quoted.get(place);
        }
        match self.parted.get(place) {
            Some(text) => Some(*text),
            None => None,
        }
    }
}
