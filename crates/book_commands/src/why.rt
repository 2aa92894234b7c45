//! What an order comes to, and how it would be accepted.
ghost use Rattle.std.specs.Prelude.{◌≡◌, ◌++◌, IfOk, OnOk};
ghost use Rattle.book_text.specs.BookText.{book_of};
ghost use Rattle.book_commands.specs.RunReply.{outcome_notes};
ghost use Rattle.book_commands.specs.Why.{RepliesToWhy, RepliesWhy, repair_notes, why_reply};

use crate::judge::{book_fault_reply, order_fault_reply, outcome_note, outcome_status};
use crate::log::Note;
use crate::run_reply::RunReply;
use book_model::Book;
use book_text::read_book;
use command_words::Budget;
use order_repair::{Repair, WhyAnswer, why_answer, why_text};
use parts_usage::Outcome;
use pb_base::{CodeList, CodeName, Day, Fail, Memory};
use std::alloc::Global;

/// What the order of these codes on this day comes to against the book of the text, and how it would be accepted.
pub fn why_reply(
    alloc: Global,
    text: &[u8],
    day: Day,
    codes: &CodeList,
    budget: &Budget,
) -> Result<RunReply, Memory>
    ensures { IfOk result (RepliesToWhy (book_of text.now) day codes.now budget.now) }
{
    match read_book(alloc, text) {
        Ok(book) => order_reply(alloc, &book, day, codes.as_slice(), budget),
        Err(Fail::Refused(fault)) => book_fault_reply(alloc, fault),
        Err(Fail::Memory) => Err(Memory),
    }
}

fn order_reply(
    alloc: Global,
    book: &Book,
    day: Day,
    codes: &[CodeName],
    budget: &Budget,
) -> Result<RunReply, Memory>
    ensures { IfOk result (RepliesWhy book.now day codes.now budget.now) }
{
    match why_answer(alloc, book, day, codes, budget.clauses()) {
        Ok(answer) => answer_reply(alloc, book, answer),
        Err(Fail::Refused(fault)) => order_fault_reply(alloc, fault),
        Err(Fail::Memory) => Err(Memory),
    }
}

// The answer, with what refuses the order in the log, and with what was learnt in a search that was left.
fn answer_reply(alloc: Global, book: &Book, answer: WhyAnswer) -> Result<RunReply, Memory>
    ensures { IfOk result (λ reply. reply ≡ why_reply book.now answer) }
{
    let text = why_text(alloc, book, &answer)?;
    let WhyAnswer {
        added: _,
        outcome,
        repair,
    } = answer;
    let status = outcome_status(&outcome);
    let mut notes = noted(alloc, &outcome)?;
    put_repair(&mut notes, repair)?;
    Ok(RunReply::new(text, status, notes))
}

fn noted(alloc: Global, outcome: &Outcome) -> Result<Vec<Note>, Memory>
    ensures { IfOk result (λ notes. notes.items ≡ outcome_notes outcome.now) }
{
    let mut notes = Vec::new(alloc);
    match outcome_note(outcome) {
        Some(note) => notes.push(note)?,
        None => {}
    }
    Ok(notes)
}

// The clauses are moved.
fn put_repair(notes: &mut Vec<Note>, repair: Repair) -> Result<(), Memory>
    ensures { OnOk result (notes.new.items ≡ notes.old.items ++ repair_notes repair) }
{
    match repair {
        Repair::Undecided(learnt) => notes.push(Note::Left(learnt))?,
        Repair::NotNeeded | Repair::NoOrder(_) | Repair::Keep(_) => {}
    }
    Ok(())
}
