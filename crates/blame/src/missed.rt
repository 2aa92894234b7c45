//! What a set misses of the kept entries. They are hints: nothing is claimed of them.

use crate::case::Case;
use crate::places::Places;

/// The kept entries that a set misses, counted no further than three. Of two both places are told, of one the first.
#[derive(Clone, Copy)]
pub(crate) struct Missed {
    pub(crate) count: usize,
    pub(crate) first: usize,
    pub(crate) second: usize,
}

impl Missed {
    /// The entry at a place alone.
    pub(crate) fn one(at: usize) -> Missed {
        Missed {
            count: 1,
            first: at,
            second: at,
        }
    }

    /// What is missed where a code was changed in a set that missed these.
    pub(crate) fn after(
        &self,
        case: &Case,
        places: &Places,
        kept: &[bool],
        values: &[bool],
        code: u32,
    ) -> Missed {
        let mut missed = Missed {
            count: 0,
            first: case.entries.len(),
            second: case.entries.len(),
        };
        missed.look_at(case, places, kept, values, self.first);
        missed.look_at(case, places, kept, values, self.second);
        let value = values.get(code as usize).copied();
        for stand in places.of_code(code) {
            if missed.count >= 3 {
                return missed;
            }
            // A clause is met where the code makes it true now.
            if stand.value.is_none() || stand.value != value {
                missed.look_at(case, places, kept, values, stand.entry);
            }
        }
        missed
    }

    fn look_at(
        &mut self,
        case: &Case,
        places: &Places,
        kept: &[bool],
        values: &[bool],
        place: usize,
    ) {
        if place == self.first || place == self.second || kept.get(place) != Some(&true) {
            return;
        }
        let Some(entry) = case.entries.get(place) else {
            return;
        };
        if places.is_met(case.book, values, place, *entry) {
            return;
        }
        if self.count == 0 {
            self.first = place;
        } else {
            self.second = place;
        }
        if self.count < 3 {
            self.count += 1;
        }
    }
}
