//! Checks what the supplementing rules of a book do.
ghost use Rattle.std.specs.Prelude.{◌≡◌, IfOk, map};
ghost use Rattle.book_text.specs.BookText.{book_of};
ghost use Rattle.supplement_findings.specs.Answering.{inquiry};
ghost use Rattle.supplement_findings.specs.Limits.{slices_within};
ghost use Rattle.book_commands.specs.Checks.{RepliesWithin};
ghost use Rattle.book_commands.specs.Supplements.{supplement_status, supplement_reply, IsSupplementReply, RepliesToSupplements};
ghost use Rattle.book_commands.specs.declared.log.Note.TheVariants.{Supplement};

use crate::check::limit_fault_reply;
use crate::judge::book_fault_reply;
use crate::log::Note;
use crate::run_reply::RunReply;
use crate::run_status::RunStatus;
use book_model::Book;
use book_text::read_book;
use command_words::{Budget, Workers};
use pb_base::{Fail, Memory};
use std::alloc::Global;
use std::thread::Threads;
use supplement_findings::{
    SupplementReport, any_finding, any_undecided, check_supplements, supplement_text,
};

/// Which supplementing rules of the book of the text break constructible sets, and which keep each other from firing, asked by so
/// many workers.
pub fn supplements_reply<R: Threads + Sync>(
    rt: &R,
    alloc: Global,
    text: &[u8],
    budget: &Budget,
    workers: &Workers,
) -> Result<RunReply, Memory>
    ensures { IfOk result (RepliesToSupplements (book_of text.now) budget.now) }
{
    match read_book(alloc, text) {
        Ok(book) => checked_reply(rt, alloc, &book, budget, workers),
        Err(Fail::Refused(fault)) => book_fault_reply(alloc, fault),
        Err(Fail::Memory) => Err(Memory),
    }
}

fn checked_reply<R: Threads + Sync>(
    rt: &R,
    alloc: Global,
    book: &Book,
    budget: &Budget,
    workers: &Workers,
) -> Result<RunReply, Memory>
    ensures { IfOk result
        (RepliesWithin (slices_within book.now) (IsSupplementReply (inquiry book.now budget.now))) }
{
    match check_supplements(rt, alloc, book, budget.clauses(), workers.count()) {
        Ok(report) => report_reply(alloc, book, report),
        Err(Fail::Refused(fault)) => limit_fault_reply(alloc, fault),
        Err(Fail::Memory) => Err(Memory),
    }
}

// The report, with its notes in the log.
fn report_reply(alloc: Global, book: &Book, report: SupplementReport) -> Result<RunReply, Memory>
    ensures { IfOk result (λ reply. reply ≡ supplement_reply book.now report) }
{
    let text = supplement_text(alloc, book, &report)?;
    let status = supplement_status(&report);
    let notes = noted(alloc, report)?;
    Ok(RunReply::new(text, status, notes))
}

fn supplement_status(report: &SupplementReport) -> RunStatus
    ensures { result ≡ supplement_status report.now }
{
    if any_finding(report) {
        RunStatus::Refused
    } else if any_undecided(report) {
        RunStatus::Undecided
    } else {
        RunStatus::Done
    }
}

// The notes of the report. Sets and clauses are moved.
fn noted(alloc: Global, report: SupplementReport) -> Result<Vec<Note>, Memory>
    ensures { IfOk result (λ notes. notes.items ≡ map Supplement report) }
{
    let mut notes = Vec::new(alloc);
    for note in report.into_items() {
        notes.push(Note::Supplement(note))?;
    }
    Ok(notes)
}
