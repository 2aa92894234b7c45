//! What an order comes to, and what can be chosen beside its codes.
ghost use Rattle.std.specs.Prelude.{◌≡◌, ◌<◌, ◌≤◌, IfOk, None, Some};
ghost use Rattle.pb_base.specs.Answers.{IfRefused};
ghost use Rattle.pb_base.specs.declared.limits.TheConstants.{MOST_BUDGET};
ghost use Rattle.left_cars.specs.Freedom.{IsFree};
ghost use Rattle.left_laws.specs.Laws.{OrdersAreSo};
ghost use Rattle.parts_usage.specs.Fault.{order_fault};
ghost use Rattle.parts_usage.specs.Outcome.{outcome_of_set};
ghost use Rattle.free_answers.specs.Answer.{IsAnswer, completed_of};

use book_model::Book;
use left_cars::{Freedom, free_codes};
use left_laws::left_laws;
use parts_usage::{OrderFault, Outcome, faultless_set, outcome};
use pb_base::{CodeName, CodeSet, Day, Fail, Memory};
use std::alloc::Global;
use supplement::Completer;

/// What an order comes to as it stands, its completed set, and what can still be chosen beside its codes.
#[derive(Drop)]
pub struct FreeAnswer {
    pub outcome: Outcome,
    pub completed: CodeSet,
    pub freedom: Freedom,
}

/// The answer to an order of these codes for this day. It is refused where the order is at fault. A search is left where so many
/// clauses were learnt for it.
pub fn free_answer(
    alloc: Global,
    book: &Book,
    day: Day,
    names: &[CodeName],
    budget: u32,
) -> Result<FreeAnswer, Fail<OrderFault>>
    requires some { 0 < budget }
    requires most { budget ≤ MOST_BUDGET }
    ensures fault { IfRefused result (λ fault. order_fault book.now day names.now ≡ Some fault) }
    ensures answer { IfOk result (IsAnswer book.now day names.now budget) }
{
    match outcome(alloc, book, day, names) {
        Ok(judged) => Ok(beside(alloc, book, day, names, budget, judged)?),
        Err(fail) => Err(fail),
    }
}

// The answer to an order without a fault that comes to this.
fn beside(
    alloc: Global,
    book: &Book,
    day: Day,
    names: &[CodeName],
    budget: u32,
    judged: Outcome,
) -> Result<FreeAnswer, Memory>
    requires some { 0 < budget }
    requires most { budget ≤ MOST_BUDGET }
    requires faultless { order_fault book.now day names.now ≡ None }
    requires judged { judged ≡ outcome_of_set book.now day (completed_of book.now day names.now) }
    ensures { IfOk result (IsAnswer book.now day names.now budget) }
{
    let completed = completed_set(alloc, book, day, names)?;
    let chosen = book.codes().places_of(alloc, names)?;
    let freedom = free_codes(alloc, book, day, &chosen, budget)?;
    orders_of(book, day, names, &chosen, budget, &freedom);
    Ok(FreeAnswer {
        outcome: judged,
        completed,
        freedom,
    })
}

// What can still be chosen is so of the orders that the book accepts. The call does nothing.
fn orders_of(
    book: &Book,
    day: Day,
    names: &[CodeName],
    chosen: &[u32],
    budget: u32,
    freedom: &Freedom,
)
    requires faultless { order_fault book.now day names.now ≡ None }
    requires free { IsFree book.now day chosen.now budget freedom.now }
    ensures { OrdersAreSo book.now day chosen.now freedom.now }
{
    left_laws(book);
}

// The set of the codes that the names name, with what the supplementing rules add.
fn completed_set(
    alloc: Global,
    book: &Book,
    day: Day,
    names: &[CodeName],
) -> Result<CodeSet, Memory>
    requires { order_fault book.now day names.now ≡ None }
    ensures { IfOk result (λ set. set ≡ completed_of book.now day names.now) }
{
    let ordered = faultless_set(alloc, book, day, names)?;
    let completer = Completer::new(alloc, book, day)?;
    let completed = completer.complete(alloc, ordered)?;
    Ok(completed.set)
}
