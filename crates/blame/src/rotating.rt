//! Further entries that are needed, found without a search.
//!
//! A set that meets all kept entries but one shows that this one is needed. With one of its codes put in or taken out, the set may meet
//! it and miss another one alone: then that is needed too. This is called model rotation. Where the changed set misses two entries, a
//! code of one of them is changed too, and where that one misses two, a third code.
ghost use Rattle.blame.specs.Cases.{FitsCase, NeedsCase};
ghost use Rattle.blame.specs.Guarding.{AreMore};

use crate::case::Case;
use crate::missed::Missed;
use crate::noting::note_by;
use crate::places::Places;
use crate::sets::set_by;
use crate::values::{flip, values_of};
use pb_base::{CodeSet, Memory};
use std::alloc::Global;

// How often two entries are missed that are gone on with, for each set that misses one.
const MOST_STEPS: usize = 64;

// More codes of an entry are many: they are changed only where it is missed alone.
const MOST_CHANGED: usize = 8;

// A set that meets all kept entries but the one at a place.
#[derive(Drop)]
struct Lacking {
    values: Vec<bool>,
    at: usize,
}

// Codes that were changed in such a set, and what it misses then. Of three codes the last isn't told.
#[derive(Clone, Copy)]
struct Step {
    codes: [u32; 2],
    count: usize,
    missed: Missed,
}

// What a rotation goes on with. It is a hint: nothing is claimed of it.
#[derive(Drop)]
struct Rotation<'a> {
    places: &'a Places,
    // By entry, whether a set that misses it alone was gone on with.
    seen: Vec<bool>,
    lacking: Vec<Lacking>,
    // The set that is changed, and the changes of it that miss two entries.
    values: Vec<bool>,
    steps: Vec<Step>,
}

/// Notes what else is needed by a set that meets all kept entries but that at a place, and by what comes of it.
pub(crate) fn rotate(
    alloc: Global,
    case: &Case,
    places: &Places,
    kept: &[bool],
    needed: &mut Vec<bool>,
    at: usize,
    set: &CodeSet,
) -> Result<(), Memory>
    requires rule { FitsCase case.now }
    requires needed { NeedsCase case.now kept.now needed.old.items }
    ensures needed { NeedsCase case.now kept.now needed.new.items }
    ensures more { AreMore needed.old.items needed.new.items }
{
    let mut rotation = Rotation {
        places,
        seen: Vec::new(alloc),
        lacking: Vec::new(alloc),
        values: Vec::new(alloc),
        steps: Vec::new(alloc),
    };
    rotate_from(alloc, case, kept, needed, &mut rotation, at, set)
}

fn rotate_from(
    alloc: Global,
    case: &Case,
    kept: &[bool],
    needed: &mut Vec<bool>,
    rotation: &mut Rotation,
    at: usize,
    set: &CodeSet,
) -> Result<(), Memory>
    requires rule { FitsCase case.now }
    requires needed { NeedsCase case.now kept.now needed.old.items }
    ensures needed { NeedsCase case.now kept.now needed.new.items }
    ensures more { AreMore needed.old.items needed.new.items }
{
    rotation.begin(alloc, case.entries.len(), set, at)?;
    // Each entry comes once, so there are no more sets than entries.
    let mut left = case.entries.len();
    while left > 0 {
        left -= 1;
        match rotation.lacking.pop() {
            Some(one) => rotate_once(alloc, case, kept, needed, rotation, one)?,
            None => return Ok(()),
        }
    }
    Ok(())
}

// The same by changes of one set. The changed sets that show a need come behind the others.
fn rotate_once(
    alloc: Global,
    case: &Case,
    kept: &[bool],
    needed: &mut Vec<bool>,
    rotation: &mut Rotation,
    one: Lacking,
) -> Result<(), Memory>
    requires rule { FitsCase case.now }
    requires needed { NeedsCase case.now kept.now needed.old.items }
    ensures needed { NeedsCase case.now kept.now needed.new.items }
    ensures more { AreMore needed.old.items needed.new.items }
{
    rotation.change(one)?;
    let mut left = MOST_STEPS;
    while left > 0 {
        left -= 1;
        match rotation.steps.pop() {
            Some(step) => go_on(alloc, case, kept, needed, rotation, step)?,
            None => return Ok(()),
        }
    }
    Ok(())
}

// The same by one more change of the set that was changed so.
fn go_on(
    alloc: Global,
    case: &Case,
    kept: &[bool],
    needed: &mut Vec<bool>,
    rotation: &mut Rotation,
    step: Step,
) -> Result<(), Memory>
    requires rule { FitsCase case.now }
    requires needed { NeedsCase case.now kept.now needed.old.items }
    ensures needed { NeedsCase case.now kept.now needed.new.items }
    ensures more { AreMore needed.old.items needed.new.items }
{
    rotation.flip_all(step);
    let Missed { first, second, .. } = step.missed;
    change_each(alloc, case, kept, needed, rotation, step, first)?;
    if second != first {
        change_each(alloc, case, kept, needed, rotation, step, second)?;
    }
    rotation.flip_all(step);
    Ok(())
}

// Changes each code of the entry at a place that wasn't changed.
fn change_each(
    alloc: Global,
    case: &Case,
    kept: &[bool],
    needed: &mut Vec<bool>,
    rotation: &mut Rotation,
    step: Step,
    at: usize,
) -> Result<(), Memory>
    requires rule { FitsCase case.now }
    requires needed { NeedsCase case.now kept.now needed.old.items }
    ensures needed { NeedsCase case.now kept.now needed.new.items }
    ensures more { AreMore needed.old.items needed.new.items }
{
    let places = rotation.places;
    let codes = places.codes(at);
    if step.count > 0 && codes.len() > MOST_CHANGED {
        return Ok(());
    }
    for code in codes {
        change_one(alloc, case, kept, needed, rotation, step, *code)?;
    }
    Ok(())
}

fn change_one(
    alloc: Global,
    case: &Case,
    kept: &[bool],
    needed: &mut Vec<bool>,
    rotation: &mut Rotation,
    step: Step,
    code: u32,
) -> Result<(), Memory>
    requires rule { FitsCase case.now }
    requires needed { NeedsCase case.now kept.now needed.old.items }
    ensures needed { NeedsCase case.now kept.now needed.new.items }
    ensures more { AreMore needed.old.items needed.new.items }
{
    if step.changes(code) {
        return Ok(());
    }
    flip(&mut rotation.values, code);
    let missed = step
        .missed
        .after(case, rotation.places, kept, &rotation.values, code);
    go_with(alloc, case, kept, needed, rotation, step.and(code, missed))?;
    flip(&mut rotation.values, code);
    Ok(())
}

// Goes on with a changed set that misses one entry or two.
fn go_with(
    alloc: Global,
    case: &Case,
    kept: &[bool],
    needed: &mut Vec<bool>,
    rotation: &mut Rotation,
    step: Step,
) -> Result<(), Memory>
    requires rule { FitsCase case.now }
    requires needed { NeedsCase case.now kept.now needed.old.items }
    ensures needed { NeedsCase case.now kept.now needed.new.items }
    ensures more { AreMore needed.old.items needed.new.items }
{
    match step.missed.count {
        1 => {
            let at = step.missed.first;
            note_open(alloc, case, kept, needed, &rotation.values, at)?;
            rotation.push_needed(alloc, needed, at)
        }
        2 => rotation.push_step(step),
        _ => Ok(()),
    }
}

// Notes that the entry at a place is needed, if the set shows it, where that isn't known.
fn note_open(
    alloc: Global,
    case: &Case,
    kept: &[bool],
    needed: &mut Vec<bool>,
    values: &[bool],
    at: usize,
) -> Result<(), Memory>
    requires rule { FitsCase case.now }
    requires needed { NeedsCase case.now kept.now needed.old.items }
    ensures needed { NeedsCase case.now kept.now needed.new.items }
    ensures more { AreMore needed.old.items needed.new.items }
{
    if needed.get(at) != Some(&false) {
        return Ok(());
    }
    let set = set_by(alloc, case.book, values)?;
    note_by(case, kept, needed, at, &set);
    Ok(())
}

impl<'a> Rotation<'a> {
    // Begins with a set that misses the one of so many entries that is at a place.
    fn begin(
        &mut self,
        alloc: Global,
        count: usize,
        set: &CodeSet,
        at: usize,
    ) -> Result<(), Memory> {
        self.seen.resize(count, false)?;
        is_first(&mut self.seen, at);
        let values = values_of(alloc, set)?;
        self.lacking.push(Lacking { values, at })?;
        Ok(())
    }

    // Goes on with this set, of which no code is changed yet.
    fn change(&mut self, one: Lacking) -> Result<(), Memory> {
        let Lacking { values, at } = one;
        self.values = values;
        self.steps.clear();
        self.steps.push(Step {
            codes: [0; 2],
            count: 0,
            missed: Missed::one(at),
        })?;
        Ok(())
    }

    // Changes the codes of a step, or changes them back.
    fn flip_all(&mut self, step: Step) {
        for place in 0..step.count.min(2) {
            flip(&mut self.values, step.codes[place]);
        }
    }

    // Where no more than two codes were changed, to go on with this set.
    fn push_step(&mut self, step: Step) -> Result<(), Memory> {
        if step.count <= 2 {
            self.steps.push(step)?;
        }
        Ok(())
    }

    // Puts the changed set behind the others, where the entry that it misses is needed and comes the first time.
    fn push_needed(&mut self, alloc: Global, needed: &[bool], at: usize) -> Result<(), Memory> {
        if needed.get(at) == Some(&true) && is_first(&mut self.seen, at) {
            let values = Vec::from_slice(alloc, &self.values)?;
            self.lacking.push(Lacking { values, at })?;
        }
        Ok(())
    }
}

impl Step {
    fn changes(self, code: u32) -> bool {
        (self.count > 0 && self.codes[0] == code) || (self.count > 1 && self.codes[1] == code)
    }

    // One code more is changed, and these are missed then.
    fn and(self, code: u32, missed: Missed) -> Step {
        let mut codes = self.codes;
        if self.count < 2 {
            codes[self.count] = code;
        }
        Step {
            codes,
            count: self.count.saturating_add(1),
            missed,
        }
    }
}

// Whether a place comes the first time.
fn is_first(seen: &mut [bool], at: usize) -> bool {
    match seen.get_mut(at) {
        Some(mark) if !*mark => {
            *mark = true;
            true
        }
        _ => false,
    }
}
