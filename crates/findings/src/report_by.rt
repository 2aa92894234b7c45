//! The report on a book whose slices several workers share.
ghost use Rattle.std.specs.Prelude.{◌≡◌, ◌<◌, ◌≤◌, All, IfOk, Err};
ghost use Rattle.pb_base.specs.Answers.{IfRefused};
ghost use Rattle.pb_base.specs.declared.limits.TheConstants.{MOST_BUDGET};
ghost use Rattle.pb_base.specs.InParts.{InParts};
ghost use Rattle.derivation.specs.Limits.{slices_within};
ghost use Rattle.findings.specs.Answering.{inquiry};
ghost use Rattle.findings.specs.Checkable.{IsCheckable};
ghost use Rattle.findings.specs.Notes.{IsReport, SliceNotes};

use crate::laws::book_laws;
use crate::report::{Ask, Note, Report};
use crate::slice_reports::{SliceReports, joined};
use crate::task::Effort;
use book_model::{Book, LimitFault, Slice};
use derivation::slices_within;
use pb_base::{Fail, Memory};
use shared_work::make_all;
use std::alloc::Global;
use std::thread::Threads;

/// The report alone, by so many workers. They share the slices, each with a run of neighbours.
pub fn report_book_by<R: Threads + Sync>(
    rt: &R,
    alloc: Global,
    book: &Book,
    budget: u32,
    ask: Ask,
    workers: u32,
) -> Result<Report, Fail<LimitFault>>
    requires some { 0 < budget }
    requires most { budget ≤ MOST_BUDGET }
    requires workers { 0 < workers }
    ensures limits { IfRefused result (λ fault. slices_within book.now ≡ Err fault) }
    ensures report { IfOk result
        (IsReport (record { book = book.now; ask = ask; budget = budget })) }
{
    book_laws(book);
    let slices = slices_within(alloc, book)?;
    let effort = Effort { ask, budget };
    let notes = shared_notes(rt, alloc, book, slices.as_slice(), effort, workers)?;
    let report = Report::of(notes);
    Ok(report)
}

// The notes of slices.
fn shared_notes<R: Threads + Sync>(
    rt: &R,
    alloc: Global,
    book: &Book,
    slices: &[Slice],
    effort: Effort,
    workers: u32,
) -> Result<Vec<Note>, Memory>
    requires slices { All (IsCheckable book.now) slices.now }
    requires some { 0 < effort.budget }
    requires budget { effort.budget ≤ MOST_BUDGET }
    requires workers { 0 < workers }
    ensures { IfOk result (λ notes.
        InParts (SliceNotes (inquiry book.now effort)) slices.now notes.items) }
{
    let work = SliceReports { book, effort };
    let reports = make_all(rt, alloc, &work, slices, workers)?;
    let notes = joined(alloc, reports)?;
    Ok(notes)
}
