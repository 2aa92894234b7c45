//! Which values of codes the cars that were found show.
ghost use Rattle.std.specs.Prelude.{◌≡◌, ◌<◌, IfOk, length, slice_set, true, if◌then◌else◌};
ghost use Rattle.left_cars.specs.Left.{is_left};
ghost use Rattle.pb_base.specs.Sets.{has};
ghost use Rattle.left_cars.specs.Seen.{IsSeen, AllSeen, only_value};

use book_model::Book;
use pb_base::{CodeSet, Day, Memory};
use std::alloc::Global;

/// The codes that some car has which was found, and those that some such car lacks.
#[derive(Drop)]
pub(crate) struct Seen {
    pub(crate) with_it: CodeSet,
    pub(crate) without: CodeSet,
}

/// Of no car.
pub(crate) fn none_seen(
    alloc: Global,
    book: &Book,
    day: Day,
    chosen: &[u32],
) -> Result<Seen, Memory>
    ensures { IfOk result (IsSeen book.now day chosen.now) }
{
    let codes = book.codes().len();
    let with_it = CodeSet::none(alloc, codes)?;
    let without = CodeSet::none(alloc, codes)?;
    Ok(Seen { with_it, without })
}

/// Notes what one more car shows.
pub(crate) fn see(book: &Book, day: Day, chosen: &[u32], seen: &mut Seen, car: &CodeSet)
    requires seen { IsSeen book.now day chosen.now seen.old }
    requires left { is_left book.now day chosen.now car.now ≡ true }
    requires counted { length car.now ≡ length book.now.codes }
    ensures seen { IsSeen book.now day chosen.now seen.new }
    ensures all { AllSeen (length book.now.codes) seen.new }
{
    for place in 0..car.len() {
        see_code(seen, place, car.has(place));
    }
}

// Notes that a car shows this value of a code.
fn see_code(seen: &mut Seen, place: u32, value: bool)
    requires with_it { place < length seen.old.with_it }
    requires without { place < length seen.old.without }
    ensures with_it { seen.new.with_it
        ≡ (if value then slice_set seen.old.with_it place true else seen.old.with_it) }
    ensures without { seen.new.without
        ≡ (if value then seen.old.without else slice_set seen.old.without place true) }
{
    if value {
        seen.with_it.with(place);
    } else {
        seen.without.with(place);
    }
}

impl Seen {
    /// The value of a code that is noted, where the other one isn't.
    pub(crate) fn only_value(&self, place: u32) -> Option<bool>
        requires with_it { place < length self.now.with_it }
        requires without { place < length self.now.without }
        ensures { result ≡ only_value (has self.now.with_it place) (has self.now.without place) }
    {
        if !self.with_it.has(place) {
            Some(false)
        } else if !self.without.has(place) {
            Some(true)
        } else {
            None
        }
    }
}
