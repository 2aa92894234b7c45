//! What no answer for all days of a term tells.
ghost use Rattle.std.specs.Prelude.{All, IfOk};
ghost use Rattle.comparison_guards.specs.Days.{IsRefusedThrough};

use book_model::Book;
use order_days::{DaysFault, Run, order_days};
use pb_base::{CodeName, Fail};
use std::alloc::Global;

/// A day is told with its neighbours, as one on which the order is refused by a rule, though it is accepted then.
pub fn no_run_has_a_day_of_another_outcome(
    alloc: Global,
    book: &Book,
    names: &[CodeName],
) -> Result<Vec<Run>, Fail<DaysFault>>
    ensures { IfOk result (λ runs. All (IsRefusedThrough book.now names.now) runs.items) }
{
    order_days(alloc, book, names)
}
