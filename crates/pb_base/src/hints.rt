//! Places at which names are likely to stand, so that most look-ups need no search. Nothing rests on them.

use crate::answer::Fail;
use crate::names::CodeName;
use crate::table::Table;
use std::alloc::Global;

// Places of codes, each in one of the slots to which its name's number leads. What a slot holds may be wrong, so who asks looks at
// the place.
#[derive(Drop)]
pub(crate) struct Hints {
    // Empty, or a power of two of them.
    slots: Vec<u32>,
}

// In how many slots a place may stand.
pub(crate) const TRIES: usize = 4;

// How many slots there are for a name.
const SLOTS_FOR_NAME: usize = 4;

const LEAST_SLOTS: usize = 64;

// In an empty slot.
const NO_PLACE: u32 = u32::MAX;

// An odd number whose bits are spread, as hashing by multiplication has it.
const MULTIPLIER: u64 = 0x9e37_79b9_7f4a_7c15;

impl Hints {
    pub(crate) fn new(alloc: Global) -> Hints {
        Hints {
            slots: Vec::new(alloc),
        }
    }

    // The place in the slot that is tried at this step, or one at which no name stands.
    #[inline(always)]
    pub(crate) fn place(&self, number: u64, step: usize) -> u32 {
        match self.slots.get(self.slot(number, step)) {
            Some(place) => *place,
            None => NO_PLACE,
        }
    }

    // The slot for this number at a step. It may lie behind the last one where there are none.
    #[inline(always)]
    fn slot(&self, number: u64, step: usize) -> usize {
        let spread = (number.wrapping_mul(MULTIPLIER) >> 32) as usize;
        (spread & self.slots.len().wrapping_sub(1)) ^ step
    }

    // Puts the place of a name, where it was added to `names` just now, into the first empty slot of its own, if there is one.
    pub(crate) fn note(
        &mut self,
        names: &Table<CodeName>,
        name: &CodeName,
        added: &Result<u32, Fail<u32>>,
    ) {
        if let Ok(place) = added {
            self.add(names, name, *place);
        }
    }

    fn add(&mut self, names: &Table<CodeName>, name: &CodeName, place: u32) {
        if self.slots.len() / SLOTS_FOR_NAME <= place as usize {
            self.widen(names);
        } else {
            self.put(name.number(), place);
        }
    }

    // Twice as many slots, for all names. On want of memory there are none.
    fn widen(&mut self, names: &Table<CodeName>) {
        let size = self.slots.len().saturating_mul(2).max(LEAST_SLOTS);
        self.slots.clear();
        if self.slots.resize(size, NO_PLACE).is_err() {
            return;
        }
        for place in 0..names.len() {
            self.put(names.name_of(place).number(), place);
        }
    }

    fn put(&mut self, number: u64, place: u32) {
        for step in 0..TRIES {
            let slot = self.slot(number, step);
            if let Some(held) = self.slots.get_mut(slot) {
                if *held == NO_PLACE {
                    *held = place;
                    return;
                }
            }
        }
    }
}
