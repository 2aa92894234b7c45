//! Judging an order.
ghost use Rattle.pb_base.specs.Answers.{Answers};
ghost use Rattle.parts_usage.specs.Outcome.{outcome_of};

use crate::fault::OrderFault;
use crate::judgement::{Outcome, judge_set};
use crate::ordered::ordered_set;
use book_model::Book;
use pb_base::{CodeName, Day, Fail};
use std::alloc::Global;
use supplement::Completer;

/// What an order of these codes for this day comes to: its codes are completed, and the completed set is refused by the first constructibility rule that it breaks, else is unfit at the first position that doesn't fit, else is accepted with its parts list. It is refused where the order itself is at fault. Any number of codes may be ordered.
pub fn outcome(
    alloc: Global,
    book: &Book,
    day: Day,
    codes: &[CodeName],
) -> Result<Outcome, Fail<OrderFault>>
    ensures { Answers result (outcome_of book.now day codes.now) }
{
    let ordered = ordered_set(alloc, book, day, codes)?;
    let completer = Completer::new(alloc, book, day)?;
    let completed = completer.complete(alloc, ordered)?;
    let outcome = judge_set(alloc, book, day, completed.set)?;
    Ok(outcome)
}
