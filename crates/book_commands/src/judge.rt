//! Judges an order against the text of a book.
ghost use Rattle.std.specs.Prelude.{◌≡◌, IfOk};
ghost use Rattle.std.specs.Option.{option_to_list};
ghost use Rattle.book_text.specs.BookText.{book_of};
ghost use Rattle.parts_usage.specs.Outcome.{outcome_of};
ghost use Rattle.book_commands.specs.RunReply.{book_fault_reply, order_fault_reply, outcome_status, outcome_notes, outcome_reply, judged_reply, order_reply};

use crate::fault_text::{book_fault_text, order_fault_text};
use crate::log::Note;
use crate::run_reply::RunReply;
use crate::run_status::RunStatus;
use book_model::Book;
use book_text::{BookFault, read_book};
use order_text::outcome_text;
use parts_usage::{OrderFault, Outcome, outcome};
use pb_base::{CodeList, CodeName, Day, Fail, Memory};
use std::alloc::Global;

/// What the order of these codes on this day comes to against the book of the text.
pub fn order_reply(
    alloc: Global,
    text: &[u8],
    day: Day,
    codes: &CodeList,
) -> Result<RunReply, Memory>
    ensures { IfOk result (λ reply. reply ≡ order_reply (book_of text.now) day codes.now) }
{
    match read_book(alloc, text) {
        Ok(book) => judged_reply(alloc, &book, day, codes.as_slice()),
        Err(Fail::Refused(fault)) => book_fault_reply(alloc, fault),
        Err(Fail::Memory) => Err(Memory),
    }
}

fn judged_reply(
    alloc: Global,
    book: &Book,
    day: Day,
    codes: &[CodeName],
) -> Result<RunReply, Memory>
    ensures { IfOk result (λ reply. reply ≡ judged_reply book.now (outcome_of book.now day codes.now)) }
{
    match outcome(alloc, book, day, codes) {
        Ok(judged) => outcome_reply(alloc, book, &judged),
        Err(Fail::Refused(fault)) => order_fault_reply(alloc, fault),
        Err(Fail::Memory) => Err(Memory),
    }
}

fn outcome_reply(alloc: Global, book: &Book, outcome: &Outcome) -> Result<RunReply, Memory>
    ensures { IfOk result (λ reply. reply ≡ outcome_reply book.now outcome.now) }
{
    let text = outcome_text(alloc, book, outcome)?;
    let status = outcome_status(outcome);
    match outcome_note(outcome) {
        Some(note) => RunReply::noted(alloc, text, status, note),
        None => Ok(RunReply::plain(alloc, text, status)),
    }
}

pub fn outcome_status(outcome: &Outcome) -> RunStatus
    ensures { result ≡ outcome_status outcome.now }
{
    match outcome {
        Outcome::Accepted { .. } => RunStatus::Done,
        Outcome::Refused(_) => RunStatus::Refused,
        Outcome::Unfit { .. } => RunStatus::Refused,
    }
}

pub fn outcome_note(outcome: &Outcome) -> Option<Note>
    ensures { option_to_list result ≡ outcome_notes outcome.now }
{
    match outcome {
        Outcome::Accepted { .. } => None,
        Outcome::Refused(rule) => Some(Note::Refused(*rule)),
        Outcome::Unfit { position, count } => Some(Note::Unfit {
            position: *position,
            count: *count,
        }),
    }
}

/// `book fault ..`, with the fault as a note.
pub fn book_fault_reply(alloc: Global, fault: BookFault) -> Result<RunReply, Memory>
    ensures { IfOk result (λ reply. reply ≡ book_fault_reply fault) }
{
    let text = book_fault_text(alloc, &fault)?;
    RunReply::noted(alloc, text, RunStatus::Faulty, Note::Text(fault))
}

/// `order fault ..`, with the fault as a note.
pub fn order_fault_reply(alloc: Global, fault: OrderFault) -> Result<RunReply, Memory>
    ensures { IfOk result (λ reply. reply ≡ order_fault_reply fault) }
{
    let text = order_fault_text(alloc, &fault)?;
    RunReply::noted(alloc, text, RunStatus::Faulty, Note::Order(fault))
}
