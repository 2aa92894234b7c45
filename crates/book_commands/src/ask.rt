//! Whether a car of a day meets a rule, and what is to blame if none does.
ghost use Rattle.std.specs.Prelude.{◌≡◌, ◌++◌, [], IfOk, OnOk, length, true};
ghost use Rattle.blame.specs.Blame.{IsTold};
ghost use Rattle.book_model.specs.Activity.{is_within};
ghost use Rattle.book_model.specs.Book.{RuleFits};
ghost use Rattle.book_text.specs.BookText.{book_of};
ghost use Rattle.left_laws.specs.Laws.{OrdersMeet};
ghost use Rattle.rule_text.specs.Reading.{rule_of};
ghost use Rattle.book_commands.specs.Ask.{RepliesToAsk, RepliesOnDay, RepliesByRule, IsAskReply, ask_notes, ask_status, rule_fault_reply, rule_fault_text, told_reply};

use crate::judge::{book_fault_reply, order_fault_reply};
use crate::log::Note;
use crate::run_reply::RunReply;
use crate::run_status::RunStatus;
use blame::{Told, ask_text, find_or_blame};
use book_model::{Book, active};
use book_text::read_book;
use command_words::{Budget, RuleWord};
use left_laws::left_laws;
use parts_usage::OrderFault;
use pb_base::{Body, Day, Fail, Formula, Memory, Text};
use rule_text::{RuleFault, put_rule_fault, read_rule};
use std::alloc::Global;

/// Whether a car of this day meets the rule, by the book of the text, and what is to blame if none does.
pub fn ask_reply(
    alloc: Global,
    text: &[u8],
    day: Day,
    rule: &RuleWord,
    budget: &Budget,
) -> Result<RunReply, Memory>
    ensures { IfOk result (RepliesToAsk (book_of text.now) day rule.now budget.now) }
{
    match read_book(alloc, text) {
        Ok(book) => day_reply(alloc, &book, day, rule, budget),
        Err(Fail::Refused(fault)) => book_fault_reply(alloc, fault),
        Err(Fail::Memory) => Err(Memory),
    }
}

fn day_reply(
    alloc: Global,
    book: &Book,
    day: Day,
    rule: &RuleWord,
    budget: &Budget,
) -> Result<RunReply, Memory>
    ensures { let in_term = is_within book.now.first book.now.last day in
        IfOk result (RepliesOnDay in_term book.now day rule.now budget.now) }
{
    let term = book.term();
    if active(term.first, term.last, day) {
        rule_reply(alloc, book, day, rule, budget)
    } else {
        order_fault_reply(alloc, OrderFault::DayOutsideTerm)
    }
}

fn rule_reply(
    alloc: Global,
    book: &Book,
    day: Day,
    rule: &RuleWord,
    budget: &Budget,
) -> Result<RunReply, Memory>
    requires { is_within book.now.first book.now.last day ≡ true }
    ensures { let read = rule_of book.now.codes rule.now in
        IfOk result (RepliesByRule book.now day budget.now read) }
{
    match read_rule(alloc, rule.bytes(), book.codes()) {
        Ok(formula) => formula_reply(alloc, book, day, &formula, budget),
        Err(Fail::Refused(fault)) => rule_fault_reply(alloc, fault),
        Err(Fail::Memory) => Err(Memory),
    }
}

fn formula_reply(
    alloc: Global,
    book: &Book,
    day: Day,
    formula: &Formula,
    budget: &Budget,
) -> Result<RunReply, Memory>
    requires fits { RuleFits (length book.now.codes) formula.now }
    requires within { is_within book.now.first book.now.last day ≡ true }
    ensures { IfOk result (IsAskReply book.now day formula.now budget.now) }
{
    let told = find_or_blame(alloc, book, day, &[], formula, budget.clauses())?;
    orders_of(book, day, formula, budget, &told);
    told_reply(alloc, book, told)
}

// What is told of the rule is so of the orders that the book accepts. The call does nothing.
fn orders_of(book: &Book, day: Day, formula: &Formula, budget: &Budget, told: &Told)
    requires within { is_within book.now.first book.now.last day ≡ true }
    requires right { IsTold book.now day [] formula.now budget.now told.now }
    ensures { OrdersMeet book.now day formula.now told.now }
{
    left_laws(book);
}

// The answer, with what was learnt in a search that was left in the log.
fn told_reply(alloc: Global, book: &Book, told: Told) -> Result<RunReply, Memory>
    ensures { IfOk result (λ reply. reply ≡ told_reply book.now told) }
{
    let text = ask_text(alloc, book, &told)?;
    let status = ask_status(&told);
    let notes = ask_notes(alloc, told)?;
    Ok(RunReply::new(text, status, notes))
}

fn ask_status(told: &Told) -> RunStatus
    ensures { result ≡ ask_status told.now }
{
    match told {
        Told::Car(_) => RunStatus::Done,
        Told::NoCar(_) => RunStatus::Refused,
        Told::Undecided(_) => RunStatus::Undecided,
    }
}

// The clauses are moved.
fn ask_notes(alloc: Global, told: Told) -> Result<Vec<Note>, Memory>
    ensures { IfOk result (λ notes. notes.items ≡ ask_notes told) }
{
    let mut notes = Vec::new(alloc);
    match told {
        Told::Car(_) | Told::NoCar(_) => {}
        Told::Undecided(learnt) => notes.push(Note::Left(learnt))?,
    }
    Ok(notes)
}

// `rule fault KIND`, with the place that the kind has, counted in bytes from 0, and with the fault as a note.
fn rule_fault_reply(alloc: Global, fault: RuleFault) -> Result<RunReply, Memory>
    ensures { IfOk result (λ reply. reply ≡ rule_fault_reply fault) }
{
    let text = rule_fault_text(alloc, &fault)?;
    RunReply::noted(alloc, text, RunStatus::Faulty, Note::Rule(fault))
}

fn rule_fault_text(alloc: Global, fault: &RuleFault) -> Result<Body, Memory>
    ensures { IfOk result (λ text. text ≡ rule_fault_text fault.now) }
{
    let mut text = Text::new(alloc);
    text.put(b"rule fault")?;
    put_rule_fault(&mut text, fault)?;
    text.put(b"\n")?;
    Ok(text.into_body())
}
