//! What no answer to a refused order tells.
ghost use Rattle.std.specs.Prelude.{◌≡◌, ℕ, ◌<◌, ◌≤◌, Bool, List, IfOk, false};
ghost use Rattle.std.specs.List.{AllByRecursion};
ghost use Rattle.pb_base.specs.declared.limits.TheConstants.{MOST_BUDGET};
ghost use Rattle.book_model.specs.Good.{is_good};
ghost use Rattle.blame.specs.declared.blamed.Blamed.{Blamed};
ghost use Rattle.order_repair.specs.Places.{is_kept};
ghost use Rattle.order_repair.specs.declared.answer.Kept.{Kept};
ghost use Rattle.order_repair.specs.declared.answer.Repair.TheVariants as Repair;
ghost use Rattle.comparison_guards.specs.Repairs.{ChangeIsAccepted};

use book_model::Book;
use order_repair::{WhyAnswer, why_answer};
use parts_usage::OrderFault;
use pb_base::{CodeName, Day, Fail};
use std::alloc::Global;

/// A caller leaves out a code that could stay.
pub fn no_code_is_told_to_go_that_stays(
    alloc: Global,
    book: &Book,
    day: Day,
    names: &[CodeName],
    budget: u32,
) -> Result<WhyAnswer, Fail<OrderFault>>
    requires some { 0 < budget }
    requires most { budget ≤ MOST_BUDGET }
    ensures { IfOk result (λ a. (k : Kept) → a.repair ≡ Repair.Keep k
        → AllByRecursion (λ code. is_kept k.codes.items code ≡ false) k.left.items) }
{
    why_answer(alloc, book, day, names, budget)
}

/// A caller changes the order as told, and it is refused again.
pub fn no_change_is_told_that_is_not_accepted(
    alloc: Global,
    book: &Book,
    day: Day,
    names: &[CodeName],
    budget: u32,
) -> Result<WhyAnswer, Fail<OrderFault>>
    requires some { 0 < budget }
    requires most { budget ≤ MOST_BUDGET }
    ensures { IfOk result (λ a. (k : Kept) → a.repair ≡ Repair.Keep k
        → ChangeIsAccepted book.now day k.codes.items k.change) }
{
    why_answer(alloc, book, day, names, budget)
}

/// A caller is told that no car can be ordered on the day, though just the search for one was given up.
pub fn no_search_that_was_left_is_told_as_no_order(
    alloc: Global,
    book: &Book,
    day: Day,
    names: &[CodeName],
    budget: u32,
) -> Result<WhyAnswer, Fail<OrderFault>>
    requires some { 0 < budget }
    requires most { budget ≤ MOST_BUDGET }
    ensures { IfOk result (λ a. (m : Blamed) → a.repair ≡ Repair.NoOrder m
        → (x : List Bool) → is_good book.now day x ≡ false) }
{
    why_answer(alloc, book, day, names, budget)
}
