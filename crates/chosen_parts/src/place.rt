//! Positions by their ids.
ghost use Rattle.std.specs.Prelude.{◌≡◌};
ghost use Rattle.pb_base.specs.Names.{same_name};
ghost use Rattle.chosen_parts.specs.Chosen.{position_place, is_at};

use book_model::{Book, Position};
use pb_base::Id;

/// The place of the position of an id, counted from 0; None where the book has no such position. The place at which it is
/// looked for first is a guess: where the books differ little, it is the place in the other book.
pub fn place_of_position(book: &Book, id: &Id, guess: usize) -> Option<u32>
    ensures { result ≡ position_place book.now id.now }
{
    let _codes = book.codes();
    if is_at(book, id, guess) {
        return Some(guess as u32);
    }
    find_position(book, id)
}

// Whether the position at a place has the id.
fn is_at(book: &Book, id: &Id, place: usize) -> bool
    ensures { result ≡ is_at book.now id.now place }
{
    match book.positions().get(place) {
        Some(position) => has_id(position, id),
        None => false,
    }
}

fn find_position(book: &Book, id: &Id) -> Option<u32>
    ensures { result ≡ position_place book.now id.now }
{
    for (place, position) in book.positions().iter().enumerate() {
        if has_id(position, id) {
            return Some(place as u32);
        }
    }
    None
}

fn has_id(position: &Position, id: &Id) -> bool
    ensures { result ≡ same_name position.now.id id.now }
{
    position.id == *id
}
