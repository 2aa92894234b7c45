//! Calls that ask what can still be chosen, and how an order would be accepted. The book is shared, and the work is done outside
//! the turn.
ghost use Rattle.std.specs.Prelude.{◌≡◌, ◌<◌, ◌≤◌, ◌⊎◌};
ghost use Rattle.pb_base.specs.declared.limits.TheConstants.{MOST_BUDGET};
ghost use Rattle.desk_words.specs.declared.reply.Reply.TheVariants as Reply;
ghost use Rattle.free_answers.specs.FreeText.{free_text};
ghost use Rattle.order_repair.specs.RepairText.{why_text};
ghost use Rattle.answering.specs.Answers.{IsAdvice, TellsFree, TellsWhy, advising};

use crate::asked::ask_in_force;
use crate::gate::Gate;
use crate::turns::Turns;
use book_model::Book;
use desk_words::{OrderWords, Reply};
use free_answers::{FreeAnswer, free_answer, free_text};
use order_repair::{WhyAnswer, why_answer, why_text};
use pb_base::{Fail, Id, Memory};
use std::alloc::Global;

/// Tells what can still be chosen beside the codes of an order to a book in force.
pub(crate) fn tell_free<T: Turns, G: Gate>(
    alloc: Global,
    turns: &mut T,
    gate: &G,
    caller: Id,
    order: &OrderWords,
    budget: u32,
) -> Reply
    requires some { 0 < budget }
    requires most { budget ≤ MOST_BUDGET }
    ensures { advising TellsFree order.now budget (T.hand turns.old) result (T.hand turns.new) }
{
    match ask_in_force(turns, order.book) {
        Ok(book) => {
            gate.judging(&caller);
            free_of(alloc, book.released().book(), order, budget)
        }
        Err(reply) => reply,
    }
}

// What can still be chosen of a book, or the order's fault.
fn free_of(alloc: Global, book: &Book, order: &OrderWords, budget: u32) -> Reply
    requires some { 0 < budget }
    requires most { budget ≤ MOST_BUDGET }
    ensures { IsAdvice TellsFree book.now order.now budget result }
{
    match free_answer(alloc, book, order.day, order.codes.as_slice(), budget) {
        Ok(answer) => free_told(alloc, book, &answer),
        Err(Fail::Refused(fault)) => Reply::OrderFault(fault),
        Err(Fail::Memory) => Reply::Memory,
    }
}

fn free_told(alloc: Global, book: &Book, answer: &FreeAnswer) -> Reply
    ensures { (result ≡ Reply.Memory) ⊎ (result ≡ Reply.Report (free_text book.now answer.now)) }
{
    match free_text(alloc, book, answer) {
        Ok(text) => Reply::Report(text),
        Err(Memory) => Reply::Memory,
    }
}

/// Tells what an order to a book in force comes to, and how it would be accepted.
pub(crate) fn tell_why<T: Turns, G: Gate>(
    alloc: Global,
    turns: &mut T,
    gate: &G,
    caller: Id,
    order: &OrderWords,
    budget: u32,
) -> Reply
    requires some { 0 < budget }
    requires most { budget ≤ MOST_BUDGET }
    ensures { advising TellsWhy order.now budget (T.hand turns.old) result (T.hand turns.new) }
{
    match ask_in_force(turns, order.book) {
        Ok(book) => {
            gate.judging(&caller);
            why_of(alloc, book.released().book(), order, budget)
        }
        Err(reply) => reply,
    }
}

// How an order to a book would be accepted, or the order's fault.
fn why_of(alloc: Global, book: &Book, order: &OrderWords, budget: u32) -> Reply
    requires some { 0 < budget }
    requires most { budget ≤ MOST_BUDGET }
    ensures { IsAdvice TellsWhy book.now order.now budget result }
{
    match why_answer(alloc, book, order.day, order.codes.as_slice(), budget) {
        Ok(answer) => why_told(alloc, book, &answer),
        Err(Fail::Refused(fault)) => Reply::OrderFault(fault),
        Err(Fail::Memory) => Reply::Memory,
    }
}

fn why_told(alloc: Global, book: &Book, answer: &WhyAnswer) -> Reply
    ensures { (result ≡ Reply.Memory) ⊎ (result ≡ Reply.Report (why_text book.now answer.now)) }
{
    match why_text(alloc, book, answer) {
        Ok(text) => Reply::Report(text),
        Err(Memory) => Reply::Memory,
    }
}
