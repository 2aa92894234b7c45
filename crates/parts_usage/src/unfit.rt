//! The positions of which a set of codes selects a number of variants that isn't permitted.
ghost use Rattle.std.specs.Prelude.{◌≡◌, ◌<◌, length};
ghost use Rattle.book_model.specs.Parts.{selected_of};
ghost use Rattle.book_model.specs.Sound.{permits};
ghost use Rattle.parts_usage.specs.Unfit.{first_unfit_of};

use crate::selected::is_selected_at;
use book_model::{Book, Position, active};
use pb_base::{CodeSet, Day};

/// A position that doesn't fit an order.
#[derive(Clone, Copy, Debug, PartialEq, Eq)]
pub struct Unfit {
    /// The place of the position, counted from 0.
    pub position: u32,
    /// How many of its variants the order selects.
    pub count: u32,
}

/// The first position that is active on the day and of which the set selects a number of variants that isn't permitted; None where every position fits.
pub fn first_unfit(book: &Book, day: Day, set: &CodeSet) -> Option<Unfit>
    requires { length set.now ≡ length book.now.codes }
    ensures { result ≡ first_unfit_of book.now day set.now }
{
    for (place, position) in book.positions().iter().enumerate() {
        if active(position.from, position.until, day) {
            let count = count_selected(book, day, set, place as u32);
            if !permits(position, count) {
                return Some(Unfit {
                    position: place as u32,
                    count,
                });
            }
        }
    }
    None
}

// Whether a position may have so many selected variants.
fn permits(position: &Position, count: u32) -> bool
    ensures { result ≡ permits position.now count }
{
    if position.mandatory {
        count == 1
    } else {
        count <= 1
    }
}

// How many variants of the position at this place are selected.
fn count_selected(book: &Book, day: Day, set: &CodeSet, place: u32) -> u32
    requires codes { length set.now ≡ length book.now.codes }
    requires in_range { place < length book.now.positions }
    ensures { result ≡ length (selected_of book.now day set.now place) }
{
    let mut count = 0;
    for variant in book.variants_of(place) {
        if is_selected_at(book, day, set, *variant) {
            count += 1;
        }
    }
    count
}
