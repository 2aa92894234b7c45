//! What changes on one run of days after the other.
ghost use Rattle.std.specs.Prelude.{◌≡◌, ℕ, ◌<◌, ◌≤◌, [], All, IfOk, not};
ghost use Rattle.std.specs.List.{AllZip};
ghost use Rattle.pb_base.specs.declared.limits.TheConstants.{MOST_BUDGET};
ghost use Rattle.book_compare.specs.Comparison.{IsComparison};
ghost use Rattle.lost_cars.specs.CommonCar.{IsCommonAnswer};
ghost use Rattle.lost_cars.specs.Losses.{AreLosses, KeepsCars};
ghost use Rattle.rules_met.specs.Met.{IsCounted};
ghost use Rattle.firing_sequence.specs.Sequence.{same_sequences};
ghost use Rattle.book_changes.specs.Budget.{IsBudget};
ghost use Rattle.book_changes.specs.Changes.{IsAnyCommon, IsRun};
ghost use Rattle.book_changes.specs.Searched.{common_by};
ghost use Rattle.book_changes.specs.Days.{IsJointRun};
ghost use Rattle.book_changes.specs.Differs.{AreDifferences};

use crate::differs::with_parts;
use crate::run::{Common, DifferNote, RunNotes};
use book_compare::{CompareNote, compare};
use book_model::Slice;
use firing_sequence::same_sequences;
use inquiry::KeptSets;
use lost_cars::{LossNote, common_car, lost_cars};
use pb_base::{Fail, Memory};
use release::Released;
use rules_met::RuleAnswer;
use shared_work::Work;
use std::alloc::Global;

/// Two books that are compared, each search with this budget. The notes on a run of days are made of it.
#[derive(Clone, Copy)]
pub(crate) struct RunWork<'a> {
    pub first: &'a Released,
    pub second: &'a Released,
    pub budget: u32,
}

impl<'a> Work for RunWork<'a> {
    type Item = Slice;

    type Made = RunNotes;

    ghost IsReady = { λ w. IsBudget w.budget };

    ghost IsGiven = { λ w. IsJointRun w.first.now.book w.second.now.book };

    ghost IsMade = { λ w. IsRun w.first.now.book w.second.now.book w.budget };

    fn make(&self, alloc: Global, runs: &[Slice]) -> Result<Vec<RunNotes>, Memory> {
        notes_on(alloc, self.first, self.second, runs, self.budget)
    }
}

// What changes on each of these runs.
fn notes_on(
    alloc: Global,
    first: &Released,
    second: &Released,
    runs: &[Slice],
    budget: u32,
) -> Result<Vec<RunNotes>, Memory>
    requires runs { All (IsJointRun first.now.book second.now.book) runs.now }
    requires some { 0 < budget }
    requires most { budget ≤ MOST_BUDGET }
    ensures { IfOk result (λ notes.
        AllZip (IsRun first.now.book second.now.book budget) runs.now notes.items) }
{
    let mut own = KeptSets::new(alloc);
    let mut others = KeptSets::new(alloc);
    let mut notes = Vec::new(alloc);
    for run in runs {
        let note = notes_of(alloc, first, second, *run, budget, &mut own, &mut others)?;
        notes.push(note)?;
    }
    Ok(notes)
}

// What changes on a run. The sets are cars of either book that were found before.
fn notes_of(
    alloc: Global,
    first: &Released,
    second: &Released,
    run: Slice,
    budget: u32,
    own: &mut KeptSets,
    others: &mut KeptSets,
) -> Result<RunNotes, Memory>
    requires run { IsJointRun first.now.book second.now.book run }
    requires some { 0 < budget }
    requires most { budget ≤ MOST_BUDGET }
    requires own { All (IsCounted first.now.book) own.old }
    requires others { All (IsCounted second.now.book) others.old }
    ensures own { All (IsCounted first.now.book) own.new }
    ensures others { All (IsCounted second.now.book) others.new }
    ensures notes { IfOk result (IsRun first.now.book second.now.book budget run) }
{
    let lost = losses(alloc, first, second, run, budget, own)?;
    let won = losses(alloc, second, first, run, budget, others)?;
    let common = any_common(alloc, first, second, run, budget, own, &lost)?;
    let added = any_added(alloc, first, second, run)?;
    let differs = differences(alloc, first, second, run, budget)?;
    Ok(RunNotes {
        days: run,
        common,
        lost,
        won,
        added,
        differs,
    })
}

// The cars of one book that the other loses.
fn losses(
    alloc: Global,
    own: &Released,
    other: &Released,
    run: Slice,
    budget: u32,
    sets: &mut KeptSets,
) -> Result<Vec<LossNote>, Memory>
    requires some { 0 < budget }
    requires most { budget ≤ MOST_BUDGET }
    requires sets { All (IsCounted own.now.book) sets.old }
    ensures sets { All (IsCounted own.now.book) sets.new }
    ensures notes { IfOk result (λ notes.
        AreLosses own.now.book other.now.book run.first budget notes.items) }
    ensures keeps { IfOk result (λ notes.
        notes.items ≡ [] → KeepsCars own.now.book other.now.book run.first) }
{
    let one = own.book();
    let two = other.book();
    lost_cars(alloc, one, two, run.first, budget, sets)
}

// Whether some car is one of both. Where no car is lost, each is.
fn any_common(
    alloc: Global,
    first: &Released,
    second: &Released,
    run: Slice,
    budget: u32,
    sets: &mut KeptSets,
    lost: &[LossNote],
) -> Result<Common, Memory>
    requires run { IsJointRun first.now.book second.now.book run }
    requires some { 0 < budget }
    requires most { budget ≤ MOST_BUDGET }
    requires keeps { lost.now ≡ [] → KeepsCars first.now.book second.now.book run.first }
    requires sets { All (IsCounted first.now.book) sets.old }
    ensures sets { All (IsCounted first.now.book) sets.new }
    ensures common { IfOk result (IsAnyCommon first.now.book second.now.book run.first budget) }
{
    if lost.is_empty() {
        return Ok(kept_common(first, second, run));
    }
    searched_common(alloc, first, second, run, budget, sets)
}

// The same by a search.
fn searched_common(
    alloc: Global,
    first: &Released,
    second: &Released,
    run: Slice,
    budget: u32,
    sets: &mut KeptSets,
) -> Result<Common, Memory>
    requires some { 0 < budget }
    requires most { budget ≤ MOST_BUDGET }
    requires sets { All (IsCounted first.now.book) sets.old }
    ensures sets { All (IsCounted first.now.book) sets.new }
    ensures common { IfOk result (IsAnyCommon first.now.book second.now.book run.first budget) }
{
    let found = found_common(alloc, first, second, run, budget, sets)?;
    let common = common_by(found);
    Ok(common)
}

// Where each car of the first book is one of the second, some car is one of both, since a released book has cars on each day.
fn kept_common(first: &Released, second: &Released, run: Slice) -> Common
    requires run { IsJointRun first.now.book second.now.book run }
    requires keeps { KeepsCars first.now.book second.now.book run.first }
    ensures { (budget : ℕ) → IsAnyCommon first.now.book second.now.book run.first budget result }
{
    let _second = second.book();
    first.book().codes().names_law();
    Common::Shared
}

// A search for one.
fn found_common(
    alloc: Global,
    first: &Released,
    second: &Released,
    run: Slice,
    budget: u32,
    sets: &mut KeptSets,
) -> Result<RuleAnswer, Memory>
    requires some { 0 < budget }
    requires most { budget ≤ MOST_BUDGET }
    requires sets { All (IsCounted first.now.book) sets.old }
    ensures sets { All (IsCounted first.now.book) sets.new }
    ensures answer { IfOk result (IsCommonAnswer first.now.book second.now.book run.first budget) }
{
    let one = first.book();
    let two = second.book();
    common_car(alloc, one, two, run.first, budget, sets)
}

// What came of the search.
fn common_by(found: RuleAnswer) -> Common
    ensures { result ≡ common_by found }
{
    match found {
        RuleAnswer::Met(_) => Common::Shared,
        RuleAnswer::NotMet => Common::Nowhere,
        RuleAnswer::Left => Common::Undecided,
    }
}

// Whether the active supplementing rules of the two, in the sequence in which they would fire, aren't the same.
fn any_added(alloc: Global, first: &Released, second: &Released, run: Slice) -> Result<bool, Memory>
    ensures { IfOk result (λ added.
        added ≡ not (same_sequences first.now.book second.now.book run.first)) }
{
    let one = first.book();
    let other = second.book();
    let same = same_sequences(alloc, one, other, run.first)?;
    Ok(!same)
}

// The positions at which cars of both get other parts.
fn differences(
    alloc: Global,
    first: &Released,
    second: &Released,
    run: Slice,
    budget: u32,
) -> Result<Vec<DifferNote>, Memory>
    requires run { IsJointRun first.now.book second.now.book run }
    requires some { 0 < budget }
    requires most { budget ≤ MOST_BUDGET }
    ensures { IfOk result (λ notes.
        AreDifferences first.now.book second.now.book run.first budget notes.items) }
{
    let compared = comparison(alloc, first, second, run, budget)?;
    let notes = with_parts(alloc, first, second, run, compared)?;
    Ok(notes)
}

// The comparison of the first day.
fn comparison(
    alloc: Global,
    first: &Released,
    second: &Released,
    run: Slice,
    budget: u32,
) -> Result<Vec<CompareNote>, Memory>
    requires run { IsJointRun first.now.book second.now.book run }
    requires some { 0 < budget }
    requires most { budget ≤ MOST_BUDGET }
    ensures { IfOk result (λ notes.
        IsComparison first.now.book second.now.book run.first budget notes.items) }
{
    match compare(alloc, first, second, run.first, budget) {
        Ok(notes) => Ok(notes),
        Err(Fail::Refused(_)) => unreachable!(),
        Err(Fail::Memory) => Err(Memory),
    }
}
