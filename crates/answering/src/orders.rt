//! Calls that place an order or read a kept one.
ghost use Rattle.std.specs.Prelude.{◌≡◌, ◌≤◌, ◌<◌, All, IfOk, IfSome, true, false, length};
ghost use Rattle.pb_base.specs.Answers.{Gives};
ghost use Rattle.release.specs.Judged.{as_outcome, refused_by};
ghost use Rattle.pb_base.specs.Names.{is_code_name};
ghost use Rattle.parts_usage.specs.Outcome.{outcome_of};
ghost use Rattle.order_text.specs.OutcomeText.{outcome_text};
ghost use Rattle.book_model.specs.Ids.{construct_id};
ghost use Rattle.desk_words.specs.declared.reply.Reply.TheVariants as Reply;
ghost use Rattle.order_desk.specs.declared.event.Event.TheVariants as Event;
ghost use Rattle.order_desk.specs.declared.event.Reading.TheVariants as Reading;
ghost use Rattle.order_desk.specs.declared.limits.TheConstants.{MOST_ORDER_NUMBER};
ghost use Rattle.order_desk.specs.Fits.{IsOrderUnder};
ghost use Rattle.answering.specs.Answers.{TextBy, after_looking, after_reading, by_outcome, ordering, placing, told_again};
ghost use Rattle.answering.specs.Course.{asks, or_memory};
ghost use Rattle.answering.specs.Hand.{Hand};
ghost use Rattle.answering.specs.Told.{BookAccepts, IsBookThere, as_kept, as_looked};

use crate::asked::{KeptOrder, Looked, ask_number, ask_order, ask_place};
use crate::gate::Gate;
use crate::judged::judged_text;
use crate::names::{code_names_law, name_law};
use crate::turns::Turns;
use book_model::Book;
use desk_words::{OrderWords, Reply};
use order_desk::SharedBook;
use parts_usage::OrderFault;
use pb_base::{Body, Fail, Id, Memory};
use release::{Judged, judge};
use std::alloc::Global;

/// Places an order under the caller's number.
pub(crate) fn place_order<T: Turns, G: Gate>(
    alloc: Global,
    turns: &mut T,
    gate: &G,
    caller: Id,
    number: u32,
    order: OrderWords,
) -> Reply
    requires least { 1 ≤ number }
    requires most { number ≤ MOST_ORDER_NUMBER }
    ensures { ordering caller number order (T.hand turns.old) result (T.hand turns.new) }
{
    match order.copy(alloc) {
        Ok(copy) => look_and_place(alloc, turns, gate, caller, number, order, copy),
        Err(Memory) => Reply::Memory,
    }
}

// The look takes the order, and it is needed again.
fn look_and_place<T: Turns, G: Gate>(
    alloc: Global,
    turns: &mut T,
    gate: &G,
    caller: Id,
    number: u32,
    order: OrderWords,
    copy: OrderWords,
) -> Reply
    requires least { 1 ≤ number }
    requires most { number ≤ MOST_ORDER_NUMBER }
    requires same { copy ≡ order }
    ensures { let event = Event.Read (Reading.Look caller number order) in
        asks event as_looked (after_looking caller number order)
        (T.hand turns.old) result (T.hand turns.new) }
{
    match ask_number(turns, caller, number, copy) {
        Ok(Looked::Free(book)) => {
            gate.judging(&caller);
            judge_and_place(alloc, turns, caller, number, order, &book)
        }
        Ok(Looked::Kept(kept)) => {
            gate.judging(&caller);
            tell_placed(alloc, &kept)
        }
        Err(reply) => reply,
    }
}

// Judges an order by its book, and places it where it is accepted.
fn judge_and_place<T: Turns>(
    alloc: Global,
    turns: &mut T,
    caller: Id,
    number: u32,
    order: OrderWords,
    book: &SharedBook,
) -> Reply
    requires least { 1 ≤ number }
    requires most { number ≤ MOST_ORDER_NUMBER }
    requires there { IsBookThere (T.hand turns.old).state.tables order.book book.now }
    ensures { or_memory (by_outcome (outcome_of book.now.book order.day order.codes) book.now.book
        (placing caller number order))
        (T.hand turns.old) result (T.hand turns.new) }
{
    match judge_by(alloc, book, &order) {
        Ok(Judged::Refused(rule)) => Reply::Refused(rule_id(book.released().book(), rule)),
        Ok(Judged::Accepted { set, list }) => {
            let judged = Judged::Accepted { set, list };
            match text_by(alloc, book, &judged) {
                Ok(text) => place(alloc, turns, caller, number, order, text),
                Err(Memory) => Reply::Memory,
            }
        }
        Err(Fail::Refused(fault)) => Reply::OrderFault(fault),
        Err(Fail::Memory) => Reply::Memory,
    }
}

fn judge_by(
    alloc: Global,
    book: &SharedBook,
    order: &OrderWords,
) -> Result<Judged, Fail<OrderFault>>
    ensures outcome { Gives result as_outcome (outcome_of book.now.book order.now.day order.now.codes) }
    ensures rule { IfOk result (λ judged. IfSome (refused_by judged)
        (λ rule. rule < length book.now.book.constructs)) }
{
    judge(alloc, book.released(), order.day, order.codes.as_slice())
}

fn text_by(alloc: Global, book: &SharedBook, judged: &Judged) -> Result<Body, Memory>
    ensures { IfOk result (λ text. text ≡ outcome_text book.now.book (as_outcome judged.now)) }
{
    judged_text(alloc, book.released().book(), judged)
}

// The id of the constructibility rule at a place.
fn rule_id(book: &Book, rule: u32) -> Id
    requires { rule < length book.now.constructs }
    ensures { result ≡ construct_id book.now rule }
{
    book.constructs()[rule as usize].id
}

// Hands an accepted order to the desk, with the text that is told of it.
fn place<T: Turns>(
    alloc: Global,
    turns: &mut T,
    caller: Id,
    number: u32,
    order: OrderWords,
    text: Body,
) -> Reply
    requires { (All (λ code. is_code_name code ≡ true) order.codes)
        → IsOrderUnder (T.hand turns.old).state.tables.books number order }
    ensures { placing caller number order text (T.hand turns.old) result (T.hand turns.new) }
{
    name_law(&caller);
    code_names_law(&order.codes);
    match ask_place(turns, caller, number, order) {
        Ok(None) => Reply::Placed { fresh: true, text },
        Ok(Some(kept)) => tell_placed(alloc, &kept),
        Err(reply) => reply,
    }
}

// Tells that an order is kept already.
fn tell_placed(alloc: Global, kept: &KeptOrder) -> Reply
    requires { BookAccepts kept.now }
    ensures { (h : Hand) → told_again kept.now.book kept.now.order (Reply.Placed false) h result h }
{
    match text_of_kept(alloc, kept) {
        Ok(text) => Reply::Placed { fresh: false, text },
        Err(Memory) => Reply::Memory,
    }
}

// The text of what a kept order comes to.
fn text_of_kept(alloc: Global, kept: &KeptOrder) -> Result<Body, Memory>
    requires { BookAccepts kept.now }
    ensures { let outcome = outcome_of kept.now.book.book kept.now.order.day kept.now.order.codes in
        IfOk result (TextBy outcome kept.now.book.book) }
{
    match judge_by(alloc, &kept.book, &kept.order) {
        Ok(judged) => text_by(alloc, &kept.book, &judged),
        Err(Fail::Refused(_)) => unreachable!(),
        Err(Fail::Memory) => Err(Memory),
    }
}

/// Reads a kept order of the caller, which is judged again for its text.
pub(crate) fn read_order<T: Turns>(alloc: Global, turns: &mut T, caller: Id, number: u32) -> Reply
    ensures { let event = Event.Read (Reading.Order caller number) in
        asks event as_kept after_reading (T.hand turns.old) result (T.hand turns.new) }
{
    match ask_order(turns, caller, number) {
        Ok(kept) => tell_order(alloc, &kept),
        Err(reply) => reply,
    }
}

fn tell_order(alloc: Global, kept: &KeptOrder) -> Reply
    requires { BookAccepts kept.now }
    ensures { (h : Hand) → after_reading kept.now h result h }
{
    match text_of_kept(alloc, kept) {
        Ok(text) => Reply::OrderIs {
            book: kept.order.book,
            day: kept.order.day,
            text,
        },
        Err(Memory) => Reply::Memory,
    }
}
