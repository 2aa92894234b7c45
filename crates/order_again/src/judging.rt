//! One order, judged by its own book and by another.
ghost use Rattle.std.specs.Prelude.{◌≡◌, None, IfOk, length, true};
ghost use Rattle.pb_base.specs.NamedSet.{named};
ghost use Rattle.parts_usage.specs.Fault.{order_fault};
ghost use Rattle.parts_usage.specs.Ordered.{ordered_of};
ghost use Rattle.release.specs.Accepting.{accepts};
ghost use Rattle.release.specs.Orders.{supplemented};
ghost use Rattle.chosen_parts.specs.Chosen.{AreFew};
ghost use Rattle.order_again.specs.Again.{IsAgain, IsSameAgain};

use crate::completed::completed_set;
use crate::outcome::Again;
use chosen_parts::same_parts;
use parts_usage::find_ordered_set;
use pb_base::{CodeName, CodeSet, Day, Fail, Memory};
use release::{Judged, Released, judge};
use std::alloc::Global;

/// What an order of these codes for this day, accepted by its own book, comes to by the other. No parts list is made, and variants
/// are looked at only where both books accept the order, since the parts of an order that breaks no rule always fit.
pub(crate) fn judge_again(
    alloc: Global,
    own: &Released,
    to: &Released,
    day: Day,
    codes: &[CodeName],
) -> Result<Again, Memory>
    requires { accepts own.now.book day codes.now ≡ true }
    ensures { IfOk result (IsAgain own.now.book to.now.book day codes.now) }
{
    let book = to.book();
    let found = find_ordered_set(alloc, book, day, codes)?;
    match found {
        Some(ordered) => judge_ordered(alloc, own, to, day, codes, ordered),
        None => fault_again(alloc, own, to, day, codes),
    }
}

// The same of an order in which the other book finds no fault.
fn judge_ordered(
    alloc: Global,
    own: &Released,
    to: &Released,
    day: Day,
    codes: &[CodeName],
    ordered: CodeSet,
) -> Result<Again, Memory>
    requires accepted { accepts own.now.book day codes.now ≡ true }
    requires faultless { order_fault to.now.book day codes.now ≡ None }
    requires ordered { ordered ≡ named to.now.book.codes codes.now }
    ensures { IfOk result (IsAgain own.now.book to.now.book day codes.now) }
{
    let book = to.book();
    let _codes = book.codes();
    let set = completed_set(alloc, to, day, ordered)?;
    match to.first_broken(day, &set) {
        Some(rule) => Ok(Again::Refused(rule)),
        None => {
            let again = same_again(alloc, own, to, day, codes, &set)?;
            Ok(again)
        }
    }
}

// The same of an order in which the other book finds a fault.
fn fault_again(
    alloc: Global,
    own: &Released,
    to: &Released,
    day: Day,
    codes: &[CodeName],
) -> Result<Again, Memory>
    requires { ordered_of to.now.book day codes.now ≡ None }
    ensures { IfOk result (IsAgain own.now.book to.now.book day codes.now) }
{
    match judge(alloc, to, day, codes) {
        Ok(Judged::Accepted { .. }) => unreachable!(),
        Ok(Judged::Refused(rule)) => Ok(Again::Refused(rule)),
        Err(Fail::Refused(fault)) => Ok(Again::Fault(fault)),
        Err(Fail::Memory) => Err(Memory),
    }
}

// The same where the other book accepts it, with this set of codes.
fn same_again(
    alloc: Global,
    own: &Released,
    to: &Released,
    day: Day,
    codes: &[CodeName],
    set: &CodeSet,
) -> Result<Again, Memory>
    requires accepted { accepts own.now.book day codes.now ≡ true }
    requires codes { length set.now ≡ length to.now.book.codes }
    requires few { AreFew to.now.book day set.now }
    ensures { let x = supplemented own.now.book day codes.now in
        IfOk result (IsSameAgain own.now.book to.now.book day x set.now) }
{
    let before = own_set(alloc, own, day, codes)?;
    if same_parts(own.book(), &before, to.book(), set, day) {
        Ok(Again::Same)
    } else {
        Ok(Again::Other)
    }
}

// The set of codes with which its own book accepts an order.
fn own_set(alloc: Global, own: &Released, day: Day, codes: &[CodeName]) -> Result<CodeSet, Memory>
    requires { accepts own.now.book day codes.now ≡ true }
    ensures set { IfOk result (λ x. x ≡ supplemented own.now.book day codes.now) }
    ensures codes { IfOk result (λ x. length x ≡ length own.now.book.codes) }
    ensures few { IfOk result (AreFew own.now.book day) }
{
    let book = own.book();
    let _codes = book.codes();
    let found = find_ordered_set(alloc, book, day, codes)?;
    match found {
        Some(ordered) => {
            let set = completed_set(alloc, own, day, ordered)?;
            Ok(set)
        }
        None => unreachable!(),
    }
}
