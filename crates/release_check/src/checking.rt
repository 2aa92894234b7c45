//! From the text of a book to the report of all questions.
ghost use Rattle.std.specs.Prelude.{◌<◌, ◌≤◌, IfOk};
ghost use Rattle.pb_base.specs.Answers.{IfRefused};
ghost use Rattle.release_check.specs.Checked.{IsNotChecked, IsReportedBook};
ghost use Rattle.pb_base.specs.declared.limits.TheConstants.{MOST_BUDGET};

use book_model::{Book, LimitFault};
use book_text::{BookFault, read_book};
use findings::{Ask, Report, report_book, report_book_by};
use pb_base::Fail;
use std::alloc::Global;
use std::thread::Threads;

/// A book, and the report of all questions about it.
#[derive(Drop)]
pub struct ReportedBook {
    pub book: Book,
    pub report: Report,
}

/// Why a text isn't checked.
#[derive(Drop)]
pub enum NotChecked {
    /// The text is no book's; this is its first fault.
    Text(BookFault),
    /// The book is too large to be checked.
    Limit(LimitFault),
}

/// The book of a text, with the report of all questions, or why there is none. For each question at most `budget` clauses are
/// learnt.
pub fn check_text(alloc: Global, text: &[u8], budget: u32) -> Result<ReportedBook, Fail<NotChecked>>
    requires some { 0 < budget }
    requires most { budget ≤ MOST_BUDGET }
    ensures reported { IfOk result (λ r. IsReportedBook text.now budget r.book r.report) }
    ensures refused { IfRefused result (IsNotChecked text.now) }
{
    let book = match read_book(alloc, text) {
        Ok(book) => book,
        Err(fail) => return Err(fail.map(NotChecked::Text)),
    };
    match report_book(alloc, &book, budget, Ask::All) {
        Ok(report) => Ok(ReportedBook { book, report }),
        Err(fail) => Err(fail.map(NotChecked::Limit)),
    }
}

/// The same by so many workers, who share the slices of the book.
pub fn check_text_by<R: Threads + Sync>(
    rt: &R,
    alloc: Global,
    text: &[u8],
    budget: u32,
    workers: u32,
) -> Result<ReportedBook, Fail<NotChecked>>
    requires some { 0 < budget }
    requires most { budget ≤ MOST_BUDGET }
    requires workers { 0 < workers }
    ensures reported { IfOk result (λ r. IsReportedBook text.now budget r.book r.report) }
    ensures refused { IfRefused result (IsNotChecked text.now) }
{
    let book = match read_book(alloc, text) {
        Ok(book) => book,
        Err(fail) => return Err(fail.map(NotChecked::Text)),
    };
    match report_book_by(rt, alloc, &book, budget, Ask::All, workers) {
        Ok(report) => Ok(ReportedBook { book, report }),
        Err(fail) => Err(fail.map(NotChecked::Limit)),
    }
}
