//! What can't count as the same parts.
ghost use Rattle.std.specs.Prelude.{◌≡◌, ℕ, List, None, [], length, true};
ghost use Rattle.chosen_parts.specs.Chosen.{AreFew, chosen, position_place};

use book_model::Book;
use chosen_parts::same_parts;
use pb_base::{CodeSet, Day};

/// Where two cars have the same parts, nothing stands at a position that only the second book has. A run would call two books alike of
/// which one puts a part more into each car.
#[tactic(auto, using(crate::proofs::PartLaws::none_more))]
pub fn no_position_of_the_second_book_is_left_out(
    first: &Book,
    x: &CodeSet,
    second: &Book,
    y: &CodeSet,
    day: Day,
) -> bool
    requires first_codes { length x.now ≡ length first.now.codes }
    requires second_codes { length y.now ≡ length second.now.codes }
    requires first_few { AreFew first.now day x.now }
    requires second_few { AreFew second.now day y.now }
    ensures { result ≡ true → (id : List ℕ) → position_place first.now id ≡ None → chosen second.now day id y.now ≡ [] }
{
    same_parts(first, x, second, y, day)
}
