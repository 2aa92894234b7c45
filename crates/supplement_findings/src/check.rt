//! The check of the supplementing rules of a book.
ghost use Rattle.std.specs.Prelude.{◌≡◌, ℕ, ◌<◌, ◌≤◌, Bool, false, List, All, IfOk, Err, length};
ghost use Rattle.pb_base.specs.Answers.{IfRefused};
ghost use Rattle.pb_base.specs.InParts.{InParts};
ghost use Rattle.pb_base.specs.declared.limits.TheConstants.{MOST_BUDGET};
ghost use Rattle.book_model.specs.Slices.{IsOrdered, IsSteady};
ghost use Rattle.book_model.specs.declared.record.Supplement.{Supplement};
ghost use Rattle.supplement_findings.specs.Answering.{AreTouched, inquiry};
ghost use Rattle.supplement_findings.specs.Ends.{swaps_with};
ghost use Rattle.supplement_findings.specs.Limits.{slices_within};
ghost use Rattle.supplement_findings.specs.Notes.{IsReport, SliceNotes};
ghost use Rattle.supplement_findings.specs.Questions.{all_questions, is_asked};

use crate::counting::slices_within;
use crate::laws::unasked_never_swap;
use crate::question::SupplementQuestion;
use crate::questions::all_questions;
use crate::report::{SupplementNote, SupplementReport};
use crate::slices::{SliceWork, joined};
use crate::touched::all_touched;
use book_model::{Book, LimitFault, Slice};
use pb_base::{Fail, Memory, Sequence};
use shared_work::make_all;
use std::alloc::Global;
use std::thread::Threads;

/// Asks of every slice of a book which of its supplementing rules break constructible sets and which swap. A question is left
/// where so many clauses were learnt for it, each of which says what propagation did not. So many workers share the slices, each
/// with a run of neighbours. A book that exceeds the limits is refused with the first of them.
pub fn check_supplements<R: Threads + Sync>(
    rt: &R,
    alloc: Global,
    book: &Book,
    budget: u32,
    workers: u32,
) -> Result<SupplementReport, Fail<LimitFault>>
    requires some { 0 < budget }
    requires most { budget ≤ MOST_BUDGET }
    requires workers { 0 < workers }
    ensures limits { IfRefused result (λ fault. slices_within book.now ≡ Err fault) }
    ensures report { IfOk result (IsReport (record { book = book.now; budget = budget })) }
    ensures unasked { (day : ℕ) (s t : Supplement) (x : List Bool) → is_asked s t ≡ false
        → swaps_with book.now day s t x ≡ false }
{
    unasked_never_swap();
    let slices = slices_within(alloc, book)?;
    let all = all_questions(alloc, book)?;
    let touched = all_touched(alloc, book)?;
    let notes = check_slices(
        rt,
        alloc,
        book,
        slices.as_slice(),
        &all,
        &touched,
        budget,
        workers,
    )?;
    Ok(SupplementReport::of(notes))
}

// The notes on slices.
fn check_slices<R: Threads + Sync>(
    rt: &R,
    alloc: Global,
    book: &Book,
    slices: &[Slice],
    all: &[SupplementQuestion],
    touched: &[Sequence<u32>],
    budget: u32,
    workers: u32,
) -> Result<Vec<SupplementNote>, Memory>
    requires steady { All (IsSteady book.now) slices.now }
    requires order { All IsOrdered slices.now }
    requires all { all.now ≡ all_questions book.now }
    requires touched { AreTouched (length book.now.codes) book.now.constructs touched.now }
    requires some { 0 < budget }
    requires most { budget ≤ MOST_BUDGET }
    requires workers { 0 < workers }
    ensures { IfOk result (λ notes. InParts (SliceNotes (inquiry book.now budget)) slices.now notes.items) }
{
    let work = SliceWork {
        book,
        all,
        touched,
        budget,
    };
    let each = make_all(rt, alloc, &work, slices, workers)?;
    let notes = joined(alloc, each)?;
    Ok(notes)
}
