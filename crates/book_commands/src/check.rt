//! Checks a whole book, or shows that it can be released.
ghost use Rattle.std.specs.Prelude.{◌≡◌, ◌≤◌, IfOk};
ghost use Rattle.book_text.specs.BookText.{book_of};
ghost use Rattle.pb_base.specs.declared.limits.TheConstants.{MOST_SLICES};
ghost use Rattle.book_commands.specs.Logged.{slices_told};
ghost use Rattle.book_commands.specs.RunReply.{limit_fault_reply, verdict_status, report_reply};
ghost use Rattle.book_commands.specs.Checks.{RepliesToCheck, RepliesToProof, HasFewSlices, kept_back_reply, not_checked_reply};

use crate::fault_text::limit_fault_text;
use crate::judge::book_fault_reply;
use crate::log::Note;
use crate::logged::logged;
use crate::run_reply::RunReply;
use crate::run_status::RunStatus;
use book_model::{Book, LimitFault};
use command_words::{Budget, Workers};
use findings::{Report, Verdict, report_text, verdict_of};
use pb_base::{Fail, Memory};
use release_check::{
    CertifiedBook, NotChecked, NotReleased, ReportedBook, certify_text_by, check_text_by,
};
use std::alloc::Global;
use std::thread::Threads;

/// What is wrong with the book of the text, by all questions, asked by so many workers.
pub fn check_reply<R: Threads + Sync>(
    rt: &R,
    alloc: Global,
    text: &[u8],
    budget: &Budget,
    workers: &Workers,
) -> Result<RunReply, Memory>
    ensures { IfOk result (RepliesToCheck (book_of text.now) budget.now) }
{
    match check_text_by(rt, alloc, text, budget.clauses(), workers.count()) {
        Ok(ReportedBook { book, report }) => {
            // Every book meets the conditions on its records, so a right report of it tells whether it can be released.
            book.codes();
            report_reply(alloc, &book, report)
        }
        Err(Fail::Refused(why)) => not_checked_reply(alloc, why),
        Err(Fail::Memory) => Err(Memory),
    }
}

/// A certificate that the book of the text can be released, or what keeps it from its release, by so many workers.
pub fn proof_reply<R: Threads + Sync>(
    rt: &R,
    alloc: Global,
    text: &[u8],
    budget: &Budget,
    workers: &Workers,
) -> Result<RunReply, Memory>
    ensures { IfOk result (RepliesToProof (book_of text.now) budget.now) }
{
    match certify_text_by(rt, alloc, text, budget.clauses(), workers.count()) {
        Ok(CertifiedBook { book: _, cert }) => Ok(RunReply::plain(alloc, cert, RunStatus::Done)),
        Err(Fail::Refused(why)) => kept_back_reply(alloc, why),
        Err(Fail::Memory) => Err(Memory),
    }
}

// Why a text isn't checked.
fn not_checked_reply(alloc: Global, why: NotChecked) -> Result<RunReply, Memory>
    ensures { IfOk result (λ reply. reply ≡ not_checked_reply why) }
{
    match why {
        NotChecked::Text(fault) => book_fault_reply(alloc, fault),
        NotChecked::Limit(fault) => limit_fault_reply(alloc, fault),
    }
}

/// Why the book of a text isn't released.
pub(crate) fn kept_back_reply(alloc: Global, why: NotReleased) -> Result<RunReply, Memory>
    requires { HasFewSlices why }
    ensures { IfOk result (λ reply. reply ≡ kept_back_reply why) }
{
    match why {
        NotReleased::Text(fault) => book_fault_reply(alloc, fault),
        NotReleased::Found { book, report } => report_reply(alloc, &book, report),
        NotReleased::Undecided { book, report } => report_reply(alloc, &book, report),
        NotReleased::Limit(fault) => limit_fault_reply(alloc, fault),
    }
}

// The report, with its findings and what was left as notes.
fn report_reply(alloc: Global, book: &Book, report: Report) -> Result<RunReply, Memory>
    requires few { slices_told report ≤ MOST_SLICES }
    ensures { IfOk result (λ reply. reply ≡ report_reply book.now report) }
{
    let text = report_text(alloc, book, &report)?;
    let status = verdict_status(verdict_of(&report));
    let notes = logged(alloc, report)?;
    Ok(RunReply::new(text, status, notes))
}

fn verdict_status(verdict: Verdict) -> RunStatus
    ensures { result ≡ verdict_status verdict }
{
    match verdict {
        Verdict::Releasable => RunStatus::Done,
        Verdict::Blocked => RunStatus::Refused,
        Verdict::Undecided => RunStatus::Undecided,
    }
}

/// `limit ..`, with the limit as a note.
pub(crate) fn limit_fault_reply(alloc: Global, fault: LimitFault) -> Result<RunReply, Memory>
    ensures { IfOk result (λ reply. reply ≡ limit_fault_reply fault) }
{
    let text = limit_fault_text(alloc, &fault)?;
    RunReply::noted(alloc, text, RunStatus::Faulty, Note::Limit(fault))
}
