//! What can still be chosen beside the codes of an order.
ghost use Rattle.std.specs.Prelude.{◌≡◌, ◌++◌, IfOk, OnOk};
ghost use Rattle.std.specs.List.{flat_map, list_any};
ghost use Rattle.book_text.specs.BookText.{book_of};
ghost use Rattle.book_commands.specs.Free.{RepliesToFree, RepliesBeside, free_reply, free_status, freedom_notes, is_left_open, state_notes, states_status};

use crate::judge::{book_fault_reply, order_fault_reply};
use crate::log::Note;
use crate::run_reply::RunReply;
use crate::run_status::RunStatus;
use book_model::Book;
use book_text::read_book;
use command_words::Budget;
use free_answers::{FreeAnswer, free_answer, free_text};
use left_cars::{CodeState, Freedom};
use pb_base::{CodeList, CodeName, Day, Fail, Memory};
use std::alloc::Global;

/// What the order of these codes on this day comes to against the book of the text, and what can still be chosen beside them.
pub fn free_reply(
    alloc: Global,
    text: &[u8],
    day: Day,
    codes: &CodeList,
    budget: &Budget,
) -> Result<RunReply, Memory>
    ensures { IfOk result (RepliesToFree (book_of text.now) day codes.now budget.now) }
{
    match read_book(alloc, text) {
        Ok(book) => beside_reply(alloc, &book, day, codes.as_slice(), budget),
        Err(Fail::Refused(fault)) => book_fault_reply(alloc, fault),
        Err(Fail::Memory) => Err(Memory),
    }
}

fn beside_reply(
    alloc: Global,
    book: &Book,
    day: Day,
    codes: &[CodeName],
    budget: &Budget,
) -> Result<RunReply, Memory>
    ensures { IfOk result (RepliesBeside book.now day codes.now budget.now) }
{
    match free_answer(alloc, book, day, codes, budget.clauses()) {
        Ok(answer) => answer_reply(alloc, book, answer),
        Err(Fail::Refused(fault)) => order_fault_reply(alloc, fault),
        Err(Fail::Memory) => Err(Memory),
    }
}

// The answer, with what was learnt in searches that were left in the log.
fn answer_reply(alloc: Global, book: &Book, answer: FreeAnswer) -> Result<RunReply, Memory>
    ensures { IfOk result (λ reply. reply ≡ free_reply book.now answer) }
{
    let text = free_text(alloc, book, &answer)?;
    let FreeAnswer {
        outcome: _,
        completed: _,
        freedom,
    } = answer;
    let status = free_status(&freedom);
    let notes = noted(alloc, freedom)?;
    Ok(RunReply::new(text, status, notes))
}

fn free_status(freedom: &Freedom) -> RunStatus
    ensures { result ≡ free_status freedom.now }
{
    match freedom {
        Freedom::NoneLeft => RunStatus::Refused,
        Freedom::NotDecided(_) => RunStatus::Undecided,
        Freedom::Codes(states) => states_status(states),
    }
}

fn states_status(states: &[CodeState]) -> RunStatus
    ensures { result ≡ states_status states.now }
{
    if any_left_open(states) {
        RunStatus::Undecided
    } else {
        RunStatus::Done
    }
}

fn any_left_open(states: &[CodeState]) -> bool
    ensures { result ≡ list_any is_left_open states.now }
{
    states.iter().any(|state| is_left_open(state))
}

fn is_left_open(state: &CodeState) -> bool
    ensures { result ≡ is_left_open state.now }
{
    matches!(state, CodeState::Undecided(_))
}

// What was learnt in searches that were left, in the order of the lines. The clauses are moved.
fn noted(alloc: Global, freedom: Freedom) -> Result<Vec<Note>, Memory>
    ensures { IfOk result (λ notes. notes.items ≡ freedom_notes freedom) }
{
    let mut notes = Vec::new(alloc);
    match freedom {
        Freedom::NoneLeft => {}
        Freedom::NotDecided(learnt) => notes.push(Note::Left(learnt))?,
        Freedom::Codes(states) => put_states(&mut notes, states)?,
    }
    Ok(notes)
}

fn put_states(notes: &mut Vec<Note>, states: Vec<CodeState>) -> Result<(), Memory>
    ensures { OnOk result (notes.new.items ≡ notes.old.items ++ flat_map state_notes states.items) }
{
    for state in states {
        put_state(notes, state)?;
    }
    Ok(())
}

fn put_state(notes: &mut Vec<Note>, state: CodeState) -> Result<(), Memory>
    ensures { OnOk result (notes.new.items ≡ notes.old.items ++ state_notes state) }
{
    match state {
        CodeState::Undecided(learnt) => notes.push(Note::Left(learnt))?,
        CodeState::Ordered | CodeState::Forced | CodeState::Excluded | CodeState::Open => {}
    }
    Ok(())
}
