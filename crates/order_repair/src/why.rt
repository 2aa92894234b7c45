//! What an order comes to, and how it would be accepted.
ghost use Rattle.std.specs.Prelude.{◌≡◌, ◌<◌, ◌≤◌, IfOk, None, Ok, Some};
ghost use Rattle.pb_base.specs.Answers.{IfRefused};
ghost use Rattle.pb_base.specs.NamedSet.{named};
ghost use Rattle.pb_base.specs.declared.limits.TheConstants.{MOST_BUDGET};
ghost use Rattle.parts_usage.specs.Fault.{order_fault};
ghost use Rattle.parts_usage.specs.Outcome.{outcome_of};
ghost use Rattle.supplement.specs.Completion.{completion_of};
ghost use Rattle.order_repair.specs.Ordered.{AreOrdered};
ghost use Rattle.order_repair.specs.Repair.{IsAnswer, IsMended, IsRepair, accepts};

use crate::answer::{Repair, WhyAnswer};
use crate::keeping::repair;
use book_model::Book;
use parts_usage::{OrderFault, Outcome, faultless_set, outcome};
use pb_base::{CodeName, Day, Fail, Memory};
use std::alloc::Global;
use supplement::{AddedList, Completer};

/// What the supplementing rules add to an order of these codes for this day, what it comes to, and how it would be accepted. It is
/// refused where the order is at fault. A search is left where so many clauses were learnt for it.
pub fn why_answer(
    alloc: Global,
    book: &Book,
    day: Day,
    names: &[CodeName],
    budget: u32,
) -> Result<WhyAnswer, Fail<OrderFault>>
    requires some { 0 < budget }
    requires most { budget ≤ MOST_BUDGET }
    ensures fault { IfRefused result (λ fault. order_fault book.now day names.now ≡ Some fault) }
    ensures answer { IfOk result (IsAnswer book.now day names.now budget) }
{
    match outcome(alloc, book, day, names) {
        Ok(judged) => Ok(answer_of(alloc, book, day, names, budget, judged)?),
        Err(fail) => Err(fail),
    }
}

// The answer to an order without a fault that comes to this.
fn answer_of(
    alloc: Global,
    book: &Book,
    day: Day,
    names: &[CodeName],
    budget: u32,
    judged: Outcome,
) -> Result<WhyAnswer, Memory>
    requires some { 0 < budget }
    requires most { budget ≤ MOST_BUDGET }
    requires faultless { order_fault book.now day names.now ≡ None }
    requires judged { outcome_of book.now day names.now ≡ Ok judged }
    ensures { IfOk result (IsAnswer book.now day names.now budget) }
{
    let added = added_by(alloc, book, day, names)?;
    let chosen = book.codes().places_of(alloc, names)?;
    let repair = repair_of(alloc, book, day, &chosen, budget, &judged)?;
    mends(book, day, names, &chosen, budget, &judged, &repair);
    Ok(WhyAnswer {
        added,
        outcome: judged,
        repair,
    })
}

// What is told to change makes an order accepted. The call does nothing.
fn mends(
    book: &Book,
    day: Day,
    names: &[CodeName],
    chosen: &[u32],
    budget: u32,
    judged: &Outcome,
    repair: &Repair,
)
    requires faultless { order_fault book.now day names.now ≡ None }
    requires repair { IsRepair book.now day chosen.now budget (accepts judged.now) repair.now }
    ensures { IsMended book.now day repair.now }
{}

// What the supplementing rules add.
fn added_by(alloc: Global, book: &Book, day: Day, names: &[CodeName]) -> Result<AddedList, Memory>
    requires { order_fault book.now day names.now ≡ None }
    ensures { IfOk result (λ added. added ≡ (completion_of book.now day (named book.now.codes names.now)).added) }
{
    let ordered = faultless_set(alloc, book, day, names)?;
    let completer = Completer::new(alloc, book, day)?;
    let completed = completer.complete(alloc, ordered)?;
    Ok(completed.added)
}

// How an order of these codes that comes to this would be accepted.
fn repair_of(
    alloc: Global,
    book: &Book,
    day: Day,
    chosen: &[u32],
    budget: u32,
    judged: &Outcome,
) -> Result<Repair, Memory>
    requires some { 0 < budget }
    requires most { budget ≤ MOST_BUDGET }
    requires ordered { AreOrdered book.now day chosen.now }
    ensures { IfOk result (IsRepair book.now day chosen.now budget (accepts judged.now)) }
{
    match judged {
        Outcome::Accepted { .. } => Ok(Repair::NotNeeded),
        Outcome::Refused(_) => repair(alloc, book, day, chosen, budget),
        Outcome::Unfit { .. } => repair(alloc, book, day, chosen, budget),
    }
}
