//! The variant that stands at a position.
ghost use Rattle.std.specs.Prelude.{◌≡◌, ◌<◌, length, map, slice_get};
ghost use Rattle.std.specs.Option.{option_map, option_to_list};
ghost use Rattle.book_model.specs.Parts.{selected_of};
ghost use Rattle.chosen_parts.specs.Chosen.{use_of, part_use, selected_at, chosen_at, chosen, AreFew};

use crate::part_use::is_selected;
use crate::place::place_of_position;
use book_model::{Book, Variant, active};
use pb_base::{CodeSet, Day, Id};

/// The variant that the set selects at the position of an id, where it selects at most one at each position; None where it
/// selects none there, and where the book has no such position. The place is a guess where the position stands.
pub fn chosen_variant<'a>(
    book: &'a Book,
    day: Day,
    set: &CodeSet,
    id: &Id,
    guess: usize,
) -> Option<&'a Variant>
    requires codes { length set.now ≡ length book.now.codes }
    requires few { AreFew book.now day set.now }
    ensures { option_to_list (option_map (λ v. use_of v.now) result) ≡ chosen book.now day id.now set.now }
{
    let place = place_of_position(book, id, guess)?;
    variant_at(book, day, set, place)
}

// The first variant that the set selects at the position at a place.
fn variant_at<'a>(book: &'a Book, day: Day, set: &CodeSet, place: u32) -> Option<&'a Variant>
    requires codes { length set.now ≡ length book.now.codes }
    ensures { option_map (λ v. use_of v.now) result ≡ slice_get (chosen_at book.now day set.now place) 0 }
{
    let position = book.positions().get(place as usize)?;
    if !active(position.from, position.until, day) {
        return None;
    }
    first_selected(book, day, set, place)
}

fn first_selected<'a>(book: &'a Book, day: Day, set: &CodeSet, place: u32) -> Option<&'a Variant>
    requires codes { length set.now ≡ length book.now.codes }
    requires within { place < length book.now.positions }
    ensures { let uses = map (part_use book.now) (selected_of book.now day set.now place) in
        option_map (λ v. use_of v.now) result ≡ slice_get uses 0 }
{
    for at in book.variants_of(place) {
        let variant = &book.variants()[*at as usize];
        if is_selected(variant, day, set) {
            return Some(variant);
        }
    }
    None
}
