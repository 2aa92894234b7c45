//! What each book selects at a position for a car of both.
ghost use Rattle.std.specs.Prelude.{◌≡◌, All, IfOk, length, true};
ghost use Rattle.std.specs.List.{AllZip, IsDistinct};
ghost use Rattle.std.specs.Option.{option_to_list};
ghost use Rattle.pb_base.specs.NamedSet.{named};
ghost use Rattle.pb_base.specs.Names.{same_name};
ghost use Rattle.book_model.specs.Good.{is_good};
ghost use Rattle.chosen_parts.specs.Chosen.{chosen, AreFew};
ghost use Rattle.pb_base.specs.Picked.{AreNamed};
ghost use Rattle.lost_cars.specs.Losses.{IsCar};
ghost use Rattle.book_changes.specs.Days.{IsJointRun, IsRunOf};
ghost use Rattle.book_changes.specs.Differs.{IsSelected, IsTrueNote};

use crate::run::DifferNote;
use book_compare::CompareNote;
use book_model::{Book, Slice};
use chosen_parts::{PartUse, chosen_variant};
use pb_base::{CodeName, CodeSet, Day, Fail, Id, Memory};
use release::Released;
use std::alloc::Global;

/// The notes of a comparison, with what each book selects.
pub(crate) fn with_parts(
    alloc: Global,
    first: &Released,
    second: &Released,
    run: Slice,
    notes: Vec<CompareNote>,
) -> Result<Vec<DifferNote>, Memory>
    requires run { IsJointRun first.now.book second.now.book run }
    requires notes { All (IsTrueNote first.now.book second.now.book run.first) notes.items }
    ensures { IfOk result (λ made. AllZip (IsSelected first.now.book second.now.book run.first) notes.items made.items) }
{
    let mut made = Vec::new(alloc);
    for note in notes {
        let own = note_with_parts(alloc, first, second, run, note)?;
        made.push(own)?;
    }
    Ok(made)
}

#[tactic(auto, using(crate::proofs::RunLaws::first_car, crate::proofs::RunLaws::second_car))]
fn note_with_parts(
    alloc: Global,
    first: &Released,
    second: &Released,
    run: Slice,
    note: CompareNote,
) -> Result<DifferNote, Memory>
    requires run { IsJointRun first.now.book second.now.book run }
    requires note { IsTrueNote first.now.book second.now.book run.first note }
    ensures { IfOk result (IsSelected first.now.book second.now.book run.first note) }
{
    match note {
        CompareNote::Finding { position, set } => {
            let has = selected(alloc, first, run, &position, set.as_slice())?;
            let next = selected(alloc, second, run, &position, set.as_slice())?;
            Ok(DifferNote::Differs {
                position,
                set,
                has,
                next,
            })
        }
        CompareNote::Undecided { position, .. } => Ok(DifferNote::Undecided { position }),
    }
}

// What a book selects for a car at the position of an id.
fn selected(
    alloc: Global,
    released: &Released,
    run: Slice,
    id: &Id,
    names: &[CodeName],
) -> Result<Option<PartUse>, Memory>
    requires run { IsRunOf released.now.book run }
    requires car { IsCar released.now.book run.first names.now }
    ensures { let b = released.now.book in
        IfOk result (λ part. option_to_list part ≡ chosen b run.first id.now (named b.codes names.now)) }
{
    let set = set_of(alloc, released, names)?;
    Ok(part_at(released, run, &set, id))
}

// What a book selects with a good set.
#[tactic(auto, using(crate::proofs::RunLaws::few_on, crate::proofs::RunLaws::good_counted))]
fn part_at(released: &Released, run: Slice, set: &CodeSet, id: &Id) -> Option<PartUse>
    requires run { IsRunOf released.now.book run }
    requires good { is_good released.now.book run.first set.now ≡ true }
    ensures { option_to_list result ≡ chosen released.now.book run.first id.now set.now }
{
    let book = released.book();
    part_of(book, run.first, set, id)
}

#[tactic(auto, using(crate::proofs::RunLaws::some_part))]
fn part_of(book: &Book, day: Day, set: &CodeSet, id: &Id) -> Option<PartUse>
    requires codes { length set.now ≡ length book.now.codes }
    requires few { AreFew book.now day set.now }
    ensures { option_to_list result ≡ chosen book.now day id.now set.now }
{
    match chosen_variant(book, day, set, id, 0) {
        Some(variant) => Some(PartUse::of(variant)),
        None => None,
    }
}

// The set of the names of a car.
#[tactic(auto, using(crate::proofs::RunLaws::never_fault, crate::proofs::RunLaws::set_made))]
fn set_of(alloc: Global, released: &Released, names: &[CodeName]) -> Result<CodeSet, Memory>
    requires distinct { IsDistinct same_name names.now }
    requires named_there { AreNamed released.now.book.codes names.now }
    ensures { IfOk result (λ set. set ≡ named released.now.book.codes names.now) }
{
    match CodeSet::of_names(alloc, released.book().codes(), names) {
        Ok(set) => Ok(set),
        Err(Fail::Refused(_)) => unreachable!(),
        Err(Fail::Memory) => Err(Memory),
    }
}
