//! What no comparison of two books on a day tells or leaves out.
ghost use Rattle.std.specs.Prelude.{◌<◌, ◌≤◌, IfOk};
ghost use Rattle.std.specs.List.{AllByRecursion};
ghost use Rattle.pb_base.specs.declared.limits.TheConstants.{MOST_BUDGET};
ghost use Rattle.chosen_parts.specs.Chosen.{ids_of_either, position_ids};
ghost use Rattle.comparison_guards.specs.Positions.{IsOfBoth, IsToldIfAdded, IsToldIfChanged};

use book_compare::{CompareNote, Outside, compare};
use pb_base::{Day, Fail};
use release::Released;
use std::alloc::Global;

/// A car gets another part, or more of it, and nobody is told before the new book is in force.
pub fn no_changed_position_is_left_out(
    alloc: Global,
    first: &Released,
    second: &Released,
    day: Day,
    budget: u32,
) -> Result<Vec<CompareNote>, Fail<Outside>>
    requires some { 0 < budget }
    requires most { budget ≤ MOST_BUDGET }
    ensures { IfOk result (λ notes. AllByRecursion (IsToldIfChanged first.now.book second.now.book day notes.items)
        (ids_of_either first.now.book second.now.book)) }
{
    compare(alloc, first, second, day, budget)
}

/// A car gets a part at a position that the first book lacks, and nobody is told.
pub fn no_position_of_the_second_book_is_left_out(
    alloc: Global,
    first: &Released,
    second: &Released,
    day: Day,
    budget: u32,
) -> Result<Vec<CompareNote>, Fail<Outside>>
    requires some { 0 < budget }
    requires most { budget ≤ MOST_BUDGET }
    ensures { IfOk result (λ notes. AllByRecursion (IsToldIfAdded first.now.book second.now.book day notes.items)
        (position_ids second.now.book)) }
{
    compare(alloc, first, second, day, budget)
}

/// A car is told of that just one of the books allows: with a code that the other lacks, say.
pub fn no_car_of_one_book_alone_is_told(
    alloc: Global,
    first: &Released,
    second: &Released,
    day: Day,
    budget: u32,
) -> Result<Vec<CompareNote>, Fail<Outside>>
    requires some { 0 < budget }
    requires most { budget ≤ MOST_BUDGET }
    ensures { IfOk result (λ notes. AllByRecursion (IsOfBoth first.now.book second.now.book day) notes.items) }
{
    compare(alloc, first, second, day, budget)
}
