//! What an order comes to on every day of a term.
ghost use Rattle.std.specs.Prelude.{◌≡◌, ◌+◌, ◌<◌, ◌^◌, [], Some, All, IfOk};
ghost use Rattle.std.specs.Option.{option_map};
ghost use Rattle.pb_base.specs.Answers.{IfRefused};
ghost use Rattle.pb_base.specs.NamedSet.{first_fault, place_of_fault};
ghost use Rattle.parts_usage.specs.Fault.{fault_of_name};
ghost use Rattle.order_days.specs.Days.{days_fault, AreRuns, FitsBook};

use crate::joining::joined_runs;
use crate::run::Run;
use book_model::{Book, LimitFault, slices};
use parts_usage::OrderFault;
use pb_base::{CodeName, CodeSet, Fail, Memory, NameFault};
use std::alloc::Global;

/// Why an order can't be judged on every day of a term.
#[derive(Clone, Copy, Debug, PartialEq, Eq)]
pub enum DaysFault {
    /// A code is unknown, or stands twice.
    Order(OrderFault),
    /// The term has too many slices.
    Limit(LimitFault),
}

/// What an order of these codes comes to on each day of the book's term: the longest runs of days on which it comes to the same. On
/// two days it is the same if it is accepted with the same codes and the same parts, is refused by the same rule, or doesn't fit at
/// the same position with the same count.
pub fn order_days(
    alloc: Global,
    book: &Book,
    names: &[CodeName],
) -> Result<Vec<Run>, Fail<DaysFault>>
    ensures fault { IfRefused result (λ fault. days_fault book.now names.now ≡ Some fault) }
    ensures runs { IfOk result (λ runs. AreRuns book.now names.now runs.items) }
    ensures fits { IfOk result (λ runs. All (FitsBook book.now) runs.items) }
{
    match names_fault(alloc, book, names)? {
        Some(fault) => Err(Fail::Refused(DaysFault::Order(fault))),
        None => days_within(alloc, book, names),
    }
}

// The same of names without a fault.
fn days_within(alloc: Global, book: &Book, names: &[CodeName]) -> Result<Vec<Run>, Fail<DaysFault>>
    requires { first_fault book.now.codes [] names.now ≡ None }
    ensures fault { IfRefused result (λ fault. days_fault book.now names.now ≡ Some fault) }
    ensures runs { IfOk result (λ runs. AreRuns book.now names.now runs.items) }
    ensures fits { IfOk result (λ runs. All (FitsBook book.now) runs.items) }
{
    let _codes = book.codes();
    match slices(alloc, book) {
        Ok(list) => Ok(joined_runs(alloc, book, names, list.as_slice())?),
        Err(Fail::Refused(fault)) => Err(Fail::Refused(DaysFault::Limit(fault))),
        Err(Fail::Memory) => Err(Fail::Memory),
    }
}

// The first of the names that is at fault.
fn names_fault(alloc: Global, book: &Book, names: &[CodeName]) -> Result<Option<OrderFault>, Memory>
    ensures { let found = first_fault book.now.codes [] names.now in
        IfOk result (λ fault. fault ≡ option_map fault_of_name found) }
{
    match CodeSet::of_names(alloc, book.codes(), names) {
        Ok(_set) => Ok(None),
        Err(Fail::Refused(fault)) => Ok(Some(order_fault(fault))),
        Err(Fail::Memory) => Err(Memory),
    }
}

// The codes of an order are counted from 1.
fn order_fault(fault: NameFault) -> OrderFault
    requires { place_of_fault fault + 1 < 2 ^ 64 }
    ensures { result ≡ fault_of_name fault }
{
    match fault {
        NameFault::Unknown(place) => OrderFault::UnknownCode(place as u64 + 1),
        NameFault::Repeated(place) => OrderFault::RepeatedCode(place as u64 + 1),
    }
}
