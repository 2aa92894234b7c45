//! Codes that an order needs to be accepted.
//!
//! Acceptance isn't monotone: an order may be accepted, refused with one code more, and accepted with two. So codes are taken out,
//! first whole runs of them and then one by one, from the last to the first, round and round until each code that is left was tried with
//! all the others there since the last one was taken out. They are told by their places in the book.
//!
//! While codes are taken out, orders are judged by the rules alone. What breaks none of them fits each position too, if the book can be
//! released. That is looked at once in the end; where it isn't so, all is done again with the positions.
ghost use Rattle.std.specs.Prelude.{◌≡◌, ◌++◌, ◌<◌, [], All, Some, true, false, IfOk, OnOk, length};
ghost use Rattle.parts_usage.specs.Ordered.{ordered_of};
ghost use Rattle.order_added.specs.Accepted.{is_accepted};
ghost use Rattle.order_added.specs.Added.{IsAdded, Among};
ghost use Rattle.order_added.specs.Judging.{passes_with, AreNeeded, IsFew, IsPassed, IsStep};

use crate::judge::Judge;
use crate::runs::take_runs_out;
use book_model::Book;
use parts_usage::faultless_set;
use pb_base::{CodeName, CodeSet, Day, Memory};
use std::alloc::Global;

/// Of other codes, with which an order is accepted, those that it needs: with them behind its own it is accepted, and with all of
/// them but one it isn't. Nothing is added to an order that is accepted as it stands. There may be fewer codes that do.
pub fn add(
    alloc: Global,
    book: &Book,
    day: Day,
    ordered: &[CodeName],
    others: Vec<CodeName>,
) -> Result<Vec<CodeName>, Memory>
    requires { is_accepted book.now day (ordered.now ++ others.items) ≡ true }
    ensures added { IfOk result (λ added. IsAdded book.now day ordered.now added.items) }
    ensures among { IfOk result (λ added. Among others.items added.items) }
    ensures none { is_accepted book.now day ordered.now ≡ true → IfOk result (λ added. added.items ≡ []) }
{
    let set = faultless_set(alloc, book, day, ordered)?;
    add_to(alloc, book, day, ordered, &others, set)
}

// The same to an order of which this is the set.
fn add_to(
    alloc: Global,
    book: &Book,
    day: Day,
    ordered: &[CodeName],
    others: &[CodeName],
    set: CodeSet,
) -> Result<Vec<CodeName>, Memory>
    requires set { ordered_of book.now day ordered.now ≡ Some set }
    requires accepted { is_accepted book.now day (ordered.now ++ others.now) ≡ true }
    ensures added { IfOk result (λ added. IsAdded book.now day ordered.now added.items) }
    ensures among { IfOk result (λ added. Among others.now added.items) }
    ensures none { is_accepted book.now day ordered.now ≡ true → IfOk result (λ added. added.items ≡ []) }
{
    let mut judge = Judge::new(alloc, book, day, set)?;
    let accepted = judge.passes(alloc, &[], &[], &[])?;
    if accepted {
        return Ok(Vec::new(alloc));
    }
    add_by(alloc, book, day, &mut judge, ordered, others)
}

// The same by the judge of the order.
fn add_by(
    alloc: Global,
    book: &Book,
    day: Day,
    judge: &mut Judge,
    ordered: &[CodeName],
    others: &[CodeName],
) -> Result<Vec<CodeName>, Memory>
    requires set { ordered_of book.now day ordered.now ≡ Some judge.old.ordered }
    requires judge { let set = judge.old.ordered in
        judge.old ≡ record { book = book.now; day = day; ordered = set; positions = true } }
    requires accepted { is_accepted book.now day (ordered.now ++ others.now) ≡ true }
    ensures added { IfOk result (λ added. IsAdded book.now day ordered.now added.items) }
    ensures among { IfOk result (λ added. Among others.now added.items) }
{
    let codes = book.codes();
    codes.names_law();
    let places = codes.places_of(alloc, others)?;
    let few = few_accepted(alloc, judge, places)?;
    codes.names_at(alloc, &few)
}

// Of codes with which the order passes those that it needs. Few are found by the rules alone.
fn few_accepted(alloc: Global, judge: &mut Judge, others: Vec<u32>) -> Result<Vec<u32>, Memory>
    requires positions { judge.old.positions ≡ true }
    requires passes { passes_with judge.old others.items ≡ true }
    ensures few { IfOk result (λ few. IsFew judge.old few.items) }
    ensures among { IfOk result (λ few. Among others.items few.items) }
{
    let few = few_by_rules(alloc, judge, &others)?;
    judge.count_positions();
    let accepted = judge.passes(alloc, &few, &[], &[])?;
    if accepted {
        Ok(few)
    } else {
        few_of(alloc, judge, others)
    }
}

// Those that the order needs to break no rule.
fn few_by_rules(alloc: Global, judge: &mut Judge, others: &[u32]) -> Result<Vec<u32>, Memory>
    requires positions { judge.old.positions ≡ true }
    requires passes { passes_with judge.old others.now ≡ true }
    ensures judge { let old = judge.old in
        OnOk result (judge.new ≡ record { book = old.book; day = old.day; ordered = old.ordered; positions = false }) }
    ensures few { IfOk result (λ few. IsFew judge.new few.items) }
    ensures among { IfOk result (λ few. Among others.now few.items) }
{
    judge.leave_positions(alloc)?;
    let all = Vec::from_slice(alloc, others)?;
    few_of(alloc, judge, all)
}

// Those that the order needs to pass.
#[tactic(auto, using(crate::proofs::PassLaws::among_among))]
fn few_of(alloc: Global, judge: &Judge, others: Vec<u32>) -> Result<Vec<u32>, Memory>
    requires { passes_with judge.now others.items ≡ true }
    ensures few { IfOk result (λ few. IsFew judge.now few.items) }
    ensures among { IfOk result (λ few. Among others.items few.items) }
{
    let mut some = others;
    take_runs_out(alloc, judge, &mut some)?;
    let few = needed_of(alloc, judge, some)?;
    Ok(few)
}

// The same code by code.
fn needed_of(alloc: Global, judge: &Judge, others: Vec<u32>) -> Result<Vec<u32>, Memory>
    requires { passes_with judge.now others.items ≡ true }
    ensures few { IfOk result (λ few. IsFew judge.now few.items) }
    ensures among { IfOk result (λ few. Among others.items few.items) }
{
    let mut added = others;
    let mut needed = 0;
    while needed < added.len() {
        needed = pass(alloc, judge, &mut added, needed)?;
    }
    Ok(added)
}

// Takes codes out that aren't needed, from the last to the first. So many of the first are known to be needed, and aren't tried until one
// is taken out. How many are known to be needed then.
fn pass(alloc: Global, judge: &Judge, added: &mut Vec<u32>, needed: usize) -> Result<usize, Memory>
    requires passes { passes_with judge.now added.old.items ≡ true }
    requires needed { AreNeeded judge.now 0 needed added.old.items }
    ensures passes { OnOk result (passes_with judge.now added.new.items ≡ true) }
    ensures among { OnOk result (Among added.old.items added.new.items) }
    ensures passed { let old = added.old.items in
        IfOk result (IsPassed judge.now old added.new.items) }
{
    let mut end = added.len();
    let mut at = end;
    let mut first = needed;
    while at > first {
        at -= 1;
        if take_out(alloc, judge, added, at)? {
            end = at;
            first = 0;
        }
    }
    Ok(end)
}

// Takes the code at a place out, unless it is needed. Whether it was taken out.
fn take_out(alloc: Global, judge: &Judge, added: &mut Vec<u32>, at: usize) -> Result<bool, Memory>
    requires there { at < length added.old.items }
    requires passes { passes_with judge.now added.old.items ≡ true }
    ensures { let old = added.old.items in
        IfOk result (IsStep judge.now at old added.new.items) }
{
    let passed = judge.passes(alloc, &added[..at], &added[at + 1..], &added[at..at + 1])?;
    if passed {
        added.remove(at);
    }
    Ok(passed)
}
