//! Parts lists: which variant stands at which position.
ghost use Rattle.std.specs.Prelude.{◌≡◌, ◌<◌, ◌++◌, IfOk, OnOk, length};
ghost use Rattle.book_model.specs.Parts.{parts, lines_at, selected_of};

use crate::selected::is_selected_at;
use book_model::{Book, active};
use pb_base::{CodeSet, Day, Memory, Sequence};
use std::alloc::Global;
use std::marker::Model;

/// A line of a parts list. A contract sees it as the same two places.
#[derive(Clone, Copy, Debug, PartialEq, Eq)]
pub struct Line {
    /// The place of the position, counted from 0.
    pub position: u32,
    /// The place of the variant among all variants of the book, counted from 0.
    pub variant: u32,
}

impl Model for Line {
    ghost use Rattle.book_model.specs.Parts.{PartsLine};

    ghost Value = { PartsLine };

    ghost view = { λ l. record { position = l.position; variant = l.variant } };

    ghost inverse = { λ l. record { position = l.position; variant = l.variant } };
}

/// The selected variants of all positions, by position and then by variant, in record order.
pub type PartsList = Sequence<Line>;

/// The parts list of a set of codes on a day: the selected variants of each position.
pub fn select(alloc: Global, book: &Book, day: Day, set: &CodeSet) -> Result<PartsList, Memory>
    requires { length set.now ≡ length book.now.codes }
    ensures { IfOk result (λ list. list ≡ parts book.now day set.now) }
{
    let mut lines = Vec::new(alloc);
    for (place, position) in book.positions().iter().enumerate() {
        if active(position.from, position.until, day) {
            push_lines(&mut lines, book, day, set, place as u32)?;
        }
    }
    Ok(Sequence::of(lines))
}

// Puts the lines of the position at this place behind the others.
fn push_lines(
    lines: &mut Vec<Line>,
    book: &Book,
    day: Day,
    set: &CodeSet,
    place: u32,
) -> Result<(), Memory>
    requires codes { length set.now ≡ length book.now.codes }
    requires in_range { place < length book.now.positions }
    ensures { let selected = selected_of book.now day set.now place in
        OnOk result (lines.new.items ≡ lines.old.items ++ lines_at place selected) }
{
    for variant in book.variants_of(place) {
        if is_selected_at(book, day, set, *variant) {
            lines.push(Line {
                position: place,
                variant: *variant,
            })?;
        }
    }
    Ok(())
}
