//! The notes on the positions that are searched.
ghost use Rattle.std.specs.Prelude.{◌≡◌, ◌++◌, ◌<◌, ◌≤◌, [], ◌∷◌, IfOk, IfSome, OnOk, length, map, slice_get};
ghost use Rattle.pb_base.specs.declared.limits.TheConstants.{MOST_BUDGET};
ghost use Rattle.book_compare.specs.Comparing.{IsComparing};
ghost use Rattle.book_compare.specs.Comparison.{AreNoted};
ghost use Rattle.pb_base.specs.Picked.{picked_one, picked};
ghost use Rattle.book_compare.specs.Source.{note_of};

use crate::comparing::Comparing;
use crate::note::CompareNote;
use crate::place::Place;
use inquiry::{KeptSets, Told, answer_all};
use pb_base::{CodeList, CodeName, CodeSet, CodeTable, Memory, Sequence};
use std::alloc::Global;

/// The notes on these positions, in order.
pub(crate) fn notes_on(
    alloc: Global,
    comparing: &Comparing,
    budget: u32,
    places: &[Place],
) -> Result<Vec<CompareNote>, Memory>
    requires ready { IsComparing comparing.now }
    requires some { 0 < budget }
    requires most { budget ≤ MOST_BUDGET }
    ensures { let c = comparing.now in
        IfOk result (λ notes. AreNoted c.first.now c.second.now c.day budget places.now notes.items) }
{
    let mut sets = KeptSets::new(alloc);
    let told = answer_all(alloc, comparing, places, budget, &mut sets)?;
    let notes = notes_of(alloc, comparing.first.codes(), told)?;
    Ok(notes)
}

// The notes by what is told of positions.
fn notes_of(
    alloc: Global,
    codes: &CodeTable,
    told: Vec<Told<Place>>,
) -> Result<Vec<CompareNote>, Memory>
    ensures { IfOk result (λ notes. notes.items ≡ map (note_of codes.now) told.items) }
{
    let mut notes = Vec::new(alloc);
    for own in told {
        put(alloc, &mut notes, codes, own)?;
    }
    Ok(notes)
}

// Puts the note by what is told of a position behind the others.
fn put(
    alloc: Global,
    notes: &mut Vec<CompareNote>,
    codes: &CodeTable,
    told: Told<Place>,
) -> Result<(), Memory>
    ensures { OnOk result (notes.new.items ≡ notes.old.items ++ note_of codes.now told ∷ []) }
{
    let note = note_of(alloc, codes, told)?;
    notes.push(note)?;
    Ok(())
}

fn note_of(alloc: Global, codes: &CodeTable, told: Told<Place>) -> Result<CompareNote, Memory>
    ensures { IfOk result (λ note. note ≡ note_of codes.now told) }
{
    match told {
        Told::Finding { question, set } => {
            let set = picked(alloc, codes, &set)?;
            Ok(CompareNote::Finding {
                position: question.id,
                set,
            })
        }
        Told::Undecided { question, learnt } => Ok(CompareNote::Undecided {
            position: question.id,
            learnt,
        }),
    }
}

// The names of the codes in a set.
fn picked(alloc: Global, codes: &CodeTable, set: &CodeSet) -> Result<CodeList, Memory>
    ensures { IfOk result (λ names. names ≡ picked codes.now set.now) }
{
    let mut names = Vec::new(alloc);
    for place in 0..codes.len() {
        put_picked(&mut names, codes, set, place)?;
    }
    Ok(Sequence::of(names))
}

fn put_picked(
    names: &mut Vec<CodeName>,
    codes: &CodeTable,
    set: &CodeSet,
    place: u32,
) -> Result<(), Memory>
    requires { place < length codes.now }
    ensures { let found = slice_get codes.now place in
        OnOk result (IfSome found (λ name. names.new.items ≡ names.old.items ++ picked_one set.now place name)) }
{
    if place < set.len() && set.has(place) {
        names.push(*codes.name_of(place))?;
    }
    Ok(())
}
