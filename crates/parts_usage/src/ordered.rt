//! The set of the codes that an order names.
ghost use Rattle.std.specs.Prelude.{◌≡◌, None, Ok, IfOk};
ghost use Rattle.pb_base.specs.Answers.{Answers};
ghost use Rattle.pb_base.specs.NamedSet.{named};
ghost use Rattle.pb_base.specs.Results.{unless};
ghost use Rattle.parts_usage.specs.Fault.{order_fault};
ghost use Rattle.parts_usage.specs.Ordered.{ordered_of};

use crate::fault::OrderFault;
use book_model::{Book, active};
use pb_base::{CodeName, CodeSet, Day, Fail, Memory};
use std::alloc::Global;

/// The set of the codes that an order for this day names, or what is wrong with the order.
pub fn ordered_set(
    alloc: Global,
    book: &Book,
    day: Day,
    names: &[CodeName],
) -> Result<CodeSet, Fail<OrderFault>>
    ensures { let set = named book.now.codes names.now in
        Answers result (unless (order_fault book.now day names.now) (Ok set)) }
{
    let term = book.term();
    if !active(term.first, term.last, day) {
        return Err(Fail::Refused(OrderFault::DayOutsideTerm));
    }
    match CodeSet::of_names(alloc, book.codes(), names) {
        Ok(set) => Ok(set),
        Err(fail) => Err(fail.map(OrderFault::of_name)),
    }
}

/// The same set, or None where something is wrong with the order.
pub fn find_ordered_set(
    alloc: Global,
    book: &Book,
    day: Day,
    names: &[CodeName],
) -> Result<Option<CodeSet>, Memory>
    ensures { IfOk result (λ found. found ≡ ordered_of book.now day names.now) }
{
    match ordered_set(alloc, book, day, names) {
        Ok(set) => Ok(Some(set)),
        Err(Fail::Refused(_)) => Ok(None),
        Err(Fail::Memory) => Err(Memory),
    }
}

/// The set of the codes of an order with which nothing is wrong.
pub fn faultless_set(
    alloc: Global,
    book: &Book,
    day: Day,
    names: &[CodeName],
) -> Result<CodeSet, Memory>
    requires { order_fault book.now day names.now ≡ None }
    ensures { IfOk result (λ set. set ≡ named book.now.codes names.now) }
{
    match ordered_set(alloc, book, day, names) {
        Ok(set) => Ok(set),
        Err(Fail::Refused(_)) => unreachable!(),
        Err(Fail::Memory) => Err(Memory),
    }
}
