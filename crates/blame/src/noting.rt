//! Notes which entries are needed, by sets that meet all kept ones but one.
ghost use Rattle.std.specs.Prelude.{◌≡◌, ◌<◌, length, true};
ghost use Rattle.pb_base.specs.Sets.{has};
ghost use Rattle.blame.specs.Cases.{FitsCase, NeedsCase, ShowsNeed};
ghost use Rattle.blame.specs.Guarding.{AreMore};

use crate::case::Case;
use crate::marks::Marks;
use crate::meeting::meets;
use crate::places::Places;
use crate::rotating::rotate;
use pb_base::{CodeSet, Memory};
use std::alloc::Global;

/// Notes that the entry at a place is needed: the set meets all others that are kept. And what else is needed by this set.
pub(crate) fn note_need(
    alloc: Global,
    case: &Case,
    places: &Places,
    marks: &mut Marks,
    at: usize,
    set: &CodeSet,
) -> Result<(), Memory>
    requires rule { FitsCase case.now }
    requires inside { at < length marks.old.needed.items }
    requires shown { ShowsNeed case.now marks.old.kept.items at set.now }
    requires needed { NeedsCase case.now marks.old.kept.items marks.old.needed.items }
    ensures kept { marks.new.kept ≡ marks.old.kept }
    ensures left { marks.new.left ≡ marks.old.left }
    ensures needed { NeedsCase case.now marks.old.kept.items marks.new.needed.items }
    ensures more { AreMore marks.old.needed.items marks.new.needed.items }
    ensures noted { has marks.new.needed.items at ≡ true }
{
    marks.needed[at] = true;
    rotate(alloc, case, places, &marks.kept, &mut marks.needed, at, set)
}

/// Notes that the entry at a place is needed, if a set of the book's codes meets all others that are kept.
pub(crate) fn note_by(case: &Case, kept: &[bool], needed: &mut Vec<bool>, at: usize, set: &CodeSet)
    requires counted { length set.now ≡ length case.now.book.now.codes }
    requires rule { FitsCase case.now }
    requires needed { NeedsCase case.now kept.now needed.old.items }
    ensures needed { NeedsCase case.now kept.now needed.new.items }
    ensures more { AreMore needed.old.items needed.new.items }
{
    if at < needed.len() && shows_need(case, kept, at, set) {
        needed[at] = true;
    }
}

// Whether a set meets the rule and all kept entries but that at a place.
fn shows_need(case: &Case, kept: &[bool], at: usize, set: &CodeSet) -> bool
    requires counted { length set.now ≡ length case.now.book.now.codes }
    requires rule { FitsCase case.now }
    ensures { result ≡ true → ShowsNeed case.now kept.now at set.now }
{
    for (place, entry) in case.entries.iter().enumerate() {
        if place != at
            && kept.get(place) == Some(&true)
            && !meets(case.book, case.day, set, *entry)
        {
            return false;
        }
    }
    case.rule.holds(set)
}
