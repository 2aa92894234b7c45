//! Whether two cars have the same parts.
ghost use Rattle.std.specs.Prelude.{◌≡◌, Bool, List, None, [], length, true, false};
ghost use Rattle.std.specs.Option.{option_map};
ghost use Rattle.chosen_parts.specs.Chosen.{use_of, position_place, chosen, AreFew, HaveSameParts, HaveOtherParts, AreSameAt, IsAdded, HaveNoneAdded};

use crate::chosen::chosen_variant;
use crate::part_use::same_use;
use crate::place::place_of_position;
use book_model::{Book, Variant};
use pb_base::{CodeSet, Day, Id};

/// Whether at each position of either book the one set has, by the one book, the parts that the other has by the other. Both
/// sets select at most one variant at each position.
pub fn same_parts(first: &Book, x: &CodeSet, second: &Book, y: &CodeSet, day: Day) -> bool
    requires first_codes { length x.now ≡ length first.now.codes }
    requires second_codes { length y.now ≡ length second.now.codes }
    requires first_few { AreFew first.now day x.now }
    requires second_few { AreFew second.now day y.now }
    ensures same { result ≡ true → HaveSameParts first.now second.now day x.now y.now }
    ensures other { result ≡ false → HaveOtherParts first.now second.now day x.now y.now }
{
    same_at_each(first, x, second, y, day) && none_added(first, second, y, day)
}

// The same at the positions of the first book.
fn same_at_each(first: &Book, x: &CodeSet, second: &Book, y: &CodeSet, day: Day) -> bool
    requires first_codes { length x.now ≡ length first.now.codes }
    requires second_codes { length y.now ≡ length second.now.codes }
    requires first_few { AreFew first.now day x.now }
    requires second_few { AreFew second.now day y.now }
    ensures same { result ≡ true → AreSameAt first.now second.now day x.now y.now (length first.now.positions) }
    ensures other { result ≡ false → HaveOtherParts first.now second.now day x.now y.now }
{
    for (place, position) in first.positions().iter().enumerate() {
        if !same_at(first, x, second, y, day, &position.id, place) {
            return false;
        }
    }
    true
}

// The same at the position of an id.
fn same_at(
    first: &Book,
    x: &CodeSet,
    second: &Book,
    y: &CodeSet,
    day: Day,
    id: &Id,
    guess: usize,
) -> bool
    requires first_codes { length x.now ≡ length first.now.codes }
    requires second_codes { length y.now ≡ length second.now.codes }
    requires first_few { AreFew first.now day x.now }
    requires second_few { AreFew second.now day y.now }
    ensures same { result ≡ true → chosen first.now day id.now x.now ≡ chosen second.now day id.now y.now }
    ensures other { result ≡ false → chosen first.now day id.now x.now ≡ chosen second.now day id.now y.now → ⊥ }
{
    let own = chosen_variant(first, day, x, id, guess);
    let other = chosen_variant(second, day, y, id, guess);
    same_choice(own, other)
}

fn same_choice(own: Option<&Variant>, other: Option<&Variant>) -> bool
    ensures same { result ≡ true
        → option_map (λ v. use_of v.now) own.entry ≡ option_map (λ v. use_of v.now) other.entry }
    ensures other { result ≡ false
        → option_map (λ v. use_of v.now) own.entry ≡ option_map (λ v. use_of v.now) other.entry → ⊥ }
{
    match (own, other) {
        (Some(own), Some(other)) => same_use(own, other),
        (None, None) => true,
        _ => false,
    }
}

// Whether nothing is selected at the positions that only the second book has.
fn none_added(first: &Book, second: &Book, y: &CodeSet, day: Day) -> bool
    requires codes { length y.now ≡ length second.now.codes }
    requires few { AreFew second.now day y.now }
    ensures none { result ≡ true → HaveNoneAdded first.now second.now day y.now (length second.now.positions) }
    ensures some { (x : List Bool) → result ≡ false → HaveOtherParts first.now second.now day x y.now }
{
    for (place, position) in second.positions().iter().enumerate() {
        if is_added(first, second, y, day, &position.id, place) {
            return false;
        }
    }
    true
}

// Whether only the second book has the position of an id, and the set selects something there.
fn is_added(first: &Book, second: &Book, y: &CodeSet, day: Day, id: &Id, guess: usize) -> bool
    requires codes { length y.now ≡ length second.now.codes }
    requires few { AreFew second.now day y.now }
    ensures added { result ≡ true → IsAdded first.now second.now day y.now id.now }
    ensures not_added { result ≡ false → position_place first.now id.now ≡ None
        → chosen second.now day id.now y.now ≡ [] }
{
    place_of_position(first, id, guess).is_none()
        && chosen_variant(second, day, y, id, guess).is_some()
}
