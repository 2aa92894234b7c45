//! The constructibility rules that a set of codes breaks.
ghost use Rattle.std.specs.Prelude.{◌≡◌, length};
ghost use Rattle.parts_usage.specs.Broken.{first_broken_of};

use book_model::{Book, breaks};
use pb_base::{CodeSet, Day};

/// The place of the first constructibility rule, counted from 0, that the set breaks on the day; None where it breaks none.
pub fn first_broken(book: &Book, day: Day, set: &CodeSet) -> Option<u32>
    requires { length set.now ≡ length book.now.codes }
    ensures { result ≡ first_broken_of book.now day set.now }
{
    for (place, rule) in book.constructs().iter().enumerate() {
        if breaks(rule, day, set) {
            return Some(place as u32);
        }
    }
    None
}
