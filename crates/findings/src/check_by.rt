//! The check of a book whose slices several workers share.
ghost use Rattle.std.specs.Prelude.{◌≡◌, ◌↔◌, ◌<◌, ◌≤◌, All, IfOk, IfSome, IsSome, Err, false, length};
ghost use Rattle.std.specs.List.{AllZip, list_any};
ghost use Rattle.pb_base.specs.Answers.{IfRefused};
ghost use Rattle.pb_base.specs.declared.limits.TheConstants.{MOST_BUDGET};
ghost use Rattle.pb_base.specs.InParts.{InParts};
ghost use Rattle.book_model.specs.Sound.{IsReleasable};
ghost use Rattle.derivation.specs.Accepted.{IsAccepted};
ghost use Rattle.derivation.specs.Limits.{slices_within};
ghost use Rattle.findings.specs.Answering.{IsShownIn, inquiry, stops};
ghost use Rattle.findings.specs.Checkable.{IsCheckable};
ghost use Rattle.findings.specs.Checked.{IsShownBy};
ghost use Rattle.findings.specs.Notes.{IsReport, SliceNotes, verdict_of};

use crate::check::{Checked, SliceChecks, check_slices, concluded};
use crate::laws::book_laws;
use crate::report::{Ask, Verdict};
use crate::slice::SliceCheck;
use crate::slice_checks::SliceProving;
use crate::task::Effort;
use book_model::{Book, LimitFault, Slice};
use derivation::slices_within;
use pb_base::{Fail, Memory};
use shared_work::make_all;
use std::alloc::Global;
use std::thread::Threads;

/// The same by so many workers, who share the slices, each with a run of neighbours. One worker puts the proof of a slice down
/// before it goes on; several keep the proofs of all slices until the last of them is found.
pub fn check_book_by<R: Threads + Sync>(
    rt: &R,
    alloc: Global,
    book: &Book,
    budget: u32,
    ask: Ask,
    workers: u32,
) -> Result<Checked, Fail<LimitFault>>
    requires some { 0 < budget }
    requires most { budget ≤ MOST_BUDGET }
    requires workers { 0 < workers }
    ensures limits { IfRefused result (λ fault. slices_within book.now ≡ Err fault) }
    ensures report { IfOk result (λ c.
        IsReport (record { book = book.now; ask = ask; budget = budget }) c.report) }
    ensures cert { IfOk result (λ c. IsSome c.cert ↔ (verdict_of c.report ≡ Verdict.Releasable)) }
    ensures accepted { IfOk result (λ c. IfSome c.cert (IsAccepted book.now)) }
    ensures released { IfOk result (λ c. verdict_of c.report ≡ Verdict.Releasable → IsReleasable book.now) }
{
    book_laws(book);
    let slices = slices_within(alloc, book)?;
    let effort = Effort { ask, budget };
    let all = shared_slices(rt, alloc, book, slices.as_slice(), effort, workers)?;
    let checked = concluded(book, all)?;
    Ok(checked)
}

// What the check of slices tells.
fn shared_slices<R: Threads + Sync>(
    rt: &R,
    alloc: Global,
    book: &Book,
    slices: &[Slice],
    effort: Effort,
    workers: u32,
) -> Result<SliceChecks, Memory>
    requires slices { All (IsCheckable book.now) slices.now }
    requires some { 0 < effort.budget }
    requires budget { effort.budget ≤ MOST_BUDGET }
    requires workers { 0 < workers }
    ensures notes { IfOk result (λ c.
        InParts (SliceNotes (inquiry book.now effort)) slices.now c.notes.items) }
    ensures stopped { IfOk result (λ c. c.stopped ≡ list_any stops c.notes.items) }
    ensures shown { IfOk result (λ c.
        c.stopped ≡ false → IsShownIn book.now slices.now (length slices.now) c.text) }
{
    if workers == 1 {
        return check_slices(alloc, book, slices, effort);
    }
    let work = SliceProving { book, effort };
    let checks = make_all(rt, alloc, &work, slices, workers)?;
    let all = put_down(alloc, book, slices, checks)?;
    Ok(all)
}

// Puts down what the check of each slice tells.
fn put_down(
    alloc: Global,
    book: &Book,
    slices: &[Slice],
    checks: Vec<SliceCheck>,
) -> Result<SliceChecks, Memory>
    requires shown { AllZip (IsShownBy book.now) slices.now checks.items }
    ensures notes { IfOk result (λ c.
        InParts (λ checked own. checked.notes.items ≡ own) checks.items c.notes.items) }
    ensures stopped { IfOk result (λ c. c.stopped ≡ list_any stops c.notes.items) }
    ensures shown { IfOk result (λ c.
        c.stopped ≡ false → IsShownIn book.now slices.now (length slices.now) c.text) }
{
    let mut all = SliceChecks::begun(alloc, book, slices)?;
    let mut number: usize = 0;
    for checked in checks {
        all.put(book, number, checked)?;
        number += 1;
    }
    Ok(all)
}
