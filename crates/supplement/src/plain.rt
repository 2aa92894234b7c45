//! Completing as its definition says it: all rules are tried anew for each added code.
ghost use Rattle.std.specs.Prelude.{◌≡◌, ◌<◌, ◌^◌, IfOk, length, All};
ghost use Rattle.book_model.specs.Book.{SupplementFits};
ghost use Rattle.supplement.specs.Completion.{completion_by, completion_of};

use crate::completed::{Added, AddedList, Completed};
use crate::firing::first_firing;
use book_model::{Book, Supplement};
use pb_base::{CodeSet, Day, Memory};
use std::alloc::Global;

/// Completes a set of the book's codes on a day. It is the slow program of the definition: `Completer` gives the same in
/// less time.
pub fn complete_plainly(
    alloc: Global,
    book: &Book,
    day: Day,
    set: CodeSet,
) -> Result<Completed, Memory>
    requires { length set ≡ length book.now.codes }
    ensures { IfOk result (λ c. c ≡ completion_of book.now day set) }
{
    complete_by_trying(alloc, book.supplements(), day, set)
}

/// The same of these supplementing rules.
pub fn complete_by_trying(
    alloc: Global,
    supplements: &[Supplement],
    day: Day,
    mut set: CodeSet,
) -> Result<Completed, Memory>
    requires fit { All (SupplementFits (length set)) supplements.now }
    requires places { length supplements.now < 2 ^ 32 }
    ensures { IfOk result (λ c. c ≡ completion_by supplements.now day set) }
{
    let mut added = AddedList::new(alloc);
    while let Some(firing) = first_firing(supplements, day, &set) {
        added.push(Added {
            code: firing.code,
            rule: firing.rule,
        })?;
        set.with(firing.code);
    }
    Ok(Completed { set, added })
}
