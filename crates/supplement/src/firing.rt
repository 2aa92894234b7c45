//! Which supplementing rule fires first.
ghost use Rattle.std.specs.Prelude.{◌≡◌, ◌≤◌, ◌^◌, ◌<◌, length, All};
ghost use Rattle.book_model.specs.Book.{SupplementFits};
ghost use Rattle.supplement.specs.Completion.{first_firing_from, first_of, firing_at};

use book_model::{Supplement, fires};
use pb_base::{CodeSet, Day};

/// A supplementing rule that fires on a day over a set.
#[derive(Clone, Copy)]
pub struct Firing {
    /// Rules fire by rank, the lowest first.
    pub rank: u32,
    /// The place of the rule among the supplementing rules of the book, counted from 0.
    pub rule: u32,
    /// The place of the code that it adds among the codes of the book, counted from 0.
    pub code: u32,
}

/// The rule that fires first: that of the lowest rank, and at one rank the earliest record.
pub fn first_firing(supplements: &[Supplement], day: Day, set: &CodeSet) -> Option<Firing>
    requires fit { All (SupplementFits (length set.now)) supplements.now }
    requires places { length supplements.now < 2 ^ 32 }
    ensures { result ≡ first_firing_from 0 day set.now supplements.now }
{
    let mut first = None;
    for (place, supplement) in supplements.iter().enumerate() {
        first = first_of(first, firing_at(place as u32, supplement, day, set));
    }
    first
}

// The rule at this place, if it fires.
fn firing_at(place: u32, supplement: &Supplement, day: Day, set: &CodeSet) -> Option<Firing>
    requires { SupplementFits (length set.now) supplement.now }
    ensures { result ≡ firing_at place day set.now supplement.now }
{
    if fires(supplement, day, set) {
        Some(Firing {
            rank: supplement.rank,
            rule: place,
            code: supplement.code,
        })
    } else {
        None
    }
}

// Of an earlier and a later record the one that fires first.
fn first_of(earlier: Option<Firing>, later: Option<Firing>) -> Option<Firing>
    ensures { result ≡ first_of earlier later }
{
    match (earlier, later) {
        (None, later) => later,
        (Some(f), None) => Some(f),
        (Some(f), Some(g)) => { if f.rank <= g.rank { Some(f) } else { Some(g) } }
    }
}
