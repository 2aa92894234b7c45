//! What an order comes to on every day of a book's term.
ghost use Rattle.std.specs.Prelude.{◌≡◌, All, IfOk};
ghost use Rattle.book_text.specs.BookText.{book_of};
ghost use Rattle.order_days.specs.Days.{FitsBook};
ghost use Rattle.book_commands.specs.Days.{RepliesToDays, RepliesOnDays, days_fault_reply, days_reply};

use crate::check::limit_fault_reply;
use crate::judge::{book_fault_reply, order_fault_reply};
use crate::run_reply::RunReply;
use crate::run_status::RunStatus;
use book_model::Book;
use book_text::read_book;
use order_days::{DaysFault, Run, days_text, order_days};
use pb_base::{CodeList, CodeName, Fail, Memory};
use std::alloc::Global;

/// What the order of these codes comes to on every day of the term, against the book of the text.
pub fn days_reply(alloc: Global, text: &[u8], codes: &CodeList) -> Result<RunReply, Memory>
    ensures { IfOk result (RepliesToDays (book_of text.now) codes.now) }
{
    match read_book(alloc, text) {
        Ok(book) => reply_on_days(alloc, &book, codes.as_slice()),
        Err(Fail::Refused(fault)) => book_fault_reply(alloc, fault),
        Err(Fail::Memory) => Err(Memory),
    }
}

fn reply_on_days(alloc: Global, book: &Book, codes: &[CodeName]) -> Result<RunReply, Memory>
    ensures { IfOk result (RepliesOnDays book.now codes.now) }
{
    match order_days(alloc, book, codes) {
        Ok(runs) => runs_reply(alloc, book, &runs),
        Err(Fail::Refused(fault)) => days_fault_reply(alloc, fault),
        Err(Fail::Memory) => Err(Memory),
    }
}

fn runs_reply(alloc: Global, book: &Book, runs: &[Run]) -> Result<RunReply, Memory>
    requires { All (FitsBook book.now) runs.now }
    ensures { IfOk result (λ reply. reply ≡ days_reply book.now runs.now) }
{
    let text = days_text(alloc, book, runs)?;
    Ok(RunReply::plain(alloc, text, RunStatus::Done))
}

fn days_fault_reply(alloc: Global, fault: DaysFault) -> Result<RunReply, Memory>
    ensures { IfOk result (λ reply. reply ≡ days_fault_reply fault) }
{
    match fault {
        DaysFault::Order(fault) => order_fault_reply(alloc, fault),
        DaysFault::Limit(fault) => limit_fault_reply(alloc, fault),
    }
}
