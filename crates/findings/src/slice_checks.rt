//! The checks of slices, one for each.
ghost use Rattle.std.specs.Prelude.{◌≡◌, ◌<◌, ◌≤◌, [], All, IfOk, OnOk};
ghost use Rattle.std.specs.List.{AllZip};
ghost use Rattle.book_model.specs.declared.record.Slice.{Slice};
ghost use Rattle.derivation.specs.Limits.{asked_of};
ghost use Rattle.slice_hints.specs.Found.{KnowsUsages};
ghost use Rattle.findings.specs.Answering.{ShowsUnlessStopped};
ghost use Rattle.findings.specs.Checkable.{IsCheckable, IsEffort};
ghost use Rattle.findings.specs.Checked.{IsChecked};
ghost use Rattle.pb_base.specs.declared.limits.TheConstants.{MOST_BUDGET, MOST_QUESTIONS};

use crate::earlier::Earlier;
use crate::slice::{SliceCheck, check_slice};
use crate::task::{Effort, SliceTask};
use book_model::{Book, Slice};
use pb_base::Memory;
use shared_work::Work;
use slice_chains::shorten;
use std::alloc::Global;

/// A book whose slices are checked. The check of a slice is made of it.
#[derive(Clone, Copy)]
pub(crate) struct SliceProving<'a> {
    pub book: &'a Book,
    pub effort: Effort,
}

impl<'a> Work for SliceProving<'a> {
    type Item = Slice;

    type Made = SliceCheck;

    ghost IsReady = { λ w. IsEffort w.effort };

    ghost IsGiven = { λ w. IsCheckable w.book.now };

    ghost IsMade = { λ w. IsChecked w.book.now w.effort };

    fn make(&self, alloc: Global, slices: &[Slice]) -> Result<Vec<SliceCheck>, Memory> {
        checks_of(alloc, self.book, slices, self.effort)
    }
}

// The check of each slice. Each hands on to the next.
fn checks_of(
    alloc: Global,
    book: &Book,
    slices: &[Slice],
    effort: Effort,
) -> Result<Vec<SliceCheck>, Memory>
    requires slices { All (IsCheckable book.now) slices.now }
    requires some { 0 < effort.budget }
    requires budget { effort.budget ≤ MOST_BUDGET }
    ensures { IfOk result (λ checks. AllZip (IsChecked book.now effort) slices.now checks.items) }
{
    let mut checks = Vec::new(alloc);
    let mut earlier = Earlier::none(alloc);
    add_checks(alloc, book, slices, effort, &mut earlier, &mut checks)?;
    Ok(checks)
}

fn add_checks(
    alloc: Global,
    book: &Book,
    slices: &[Slice],
    effort: Effort,
    earlier: &mut Earlier,
    checks: &mut Vec<SliceCheck>,
) -> Result<(), Memory>
    requires slices { All (IsCheckable book.now) slices.now }
    requires some { 0 < effort.budget }
    requires budget { effort.budget ≤ MOST_BUDGET }
    requires none { checks.old.items ≡ [] }
    requires earlier { All (KnowsUsages book.now) earlier.old.sets.items }
    ensures { OnOk result (AllZip (IsChecked book.now effort) slices.now checks.new.items) }
{
    for slice in slices.iter() {
        let checked = check_one(alloc, book, *slice, effort, earlier)?;
        checks.push(checked)?;
    }
    Ok(())
}

/// The check of a slice. Its proof has no more steps than its closings rest on.
pub(crate) fn check_one(
    alloc: Global,
    book: &Book,
    slice: Slice,
    effort: Effort,
    earlier: &mut Earlier,
) -> Result<SliceCheck, Memory>
    requires slice { IsCheckable book.now slice }
    requires some { 0 < effort.budget }
    requires budget { effort.budget ≤ MOST_BUDGET }
    requires earlier { All (KnowsUsages book.now) earlier.old.sets.items }
    ensures earlier { OnOk result (All (KnowsUsages book.now) earlier.new.sets.items) }
    ensures checked { IfOk result (IsChecked book.now effort slice) }
{
    let task = SliceTask { slice, effort };
    let checked = check_slice(alloc, book, task, earlier)?;
    let checked = with_short_proof(alloc, book, &slice, checked)?;
    Ok(checked)
}

// The same with a proof of no more steps than its closings rest on.
fn with_short_proof(
    alloc: Global,
    book: &Book,
    slice: &Slice,
    checked: SliceCheck,
) -> Result<SliceCheck, Memory>
    requires few { asked_of book.now slice.now ≤ MOST_QUESTIONS }
    requires proof { ShowsUnlessStopped book.now slice.now checked.notes.items checked.proof }
    ensures notes { IfOk result (λ c. c.notes.items ≡ checked.notes.items) }
    ensures proof { IfOk result (λ c. ShowsUnlessStopped book.now slice.now c.notes.items c.proof) }
{
    let SliceCheck { notes, proof } = checked;
    let Some(proof) = proof else {
        return Ok(SliceCheck { notes, proof: None });
    };
    let proof = Some(shorten(alloc, book, slice, proof)?);
    Ok(SliceCheck { notes, proof })
}
