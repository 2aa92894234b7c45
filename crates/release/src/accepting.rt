//! Whether a released book accepts orders.
ghost use Rattle.std.specs.Prelude.{◌≡◌, IfOk, is_none, length};
ghost use Rattle.parts_usage.specs.Broken.{first_broken_of};
ghost use Rattle.release.specs.Accepting.{accepts};
ghost use Rattle.supplement.specs.Completion.{completion_of};

use crate::released::Released;
use book_model::active;
use pb_base::{CodeName, CodeSet, Day, Fail, Memory};
use std::alloc::Global;

/// Whether an order of these codes for this day comes to a parts list. The list isn't made and no variant is looked at,
/// since the parts of an order that breaks no rule always fit.
pub fn accepts(
    alloc: Global,
    released: &Released,
    day: Day,
    codes: &[CodeName],
) -> Result<bool, Memory>
    ensures { IfOk result (λ accepted. accepted ≡ accepts released.now.book day codes.now) }
{
    let book = released.book();
    let term = book.term();
    if !active(term.first, term.last, day) {
        return Ok(false);
    }
    match CodeSet::of_names(alloc, book.codes(), codes) {
        Ok(ordered) => breaks_none(alloc, released, day, ordered),
        Err(Fail::Refused(_)) => Ok(false),
        Err(Fail::Memory) => Err(Memory),
    }
}

// Whether the codes, once they are completed, break no constructibility rule.
fn breaks_none(
    alloc: Global,
    released: &Released,
    day: Day,
    ordered: CodeSet,
) -> Result<bool, Memory>
    requires { length ordered ≡ length released.now.book.codes }
    ensures { IfOk result (λ none. none ≡ is_none
        (first_broken_of released.now.book day (completion_of released.now.book day ordered).set)) }
{
    let completed = released.complete(alloc, day, ordered)?;
    Ok(released.first_broken(day, &completed.set).is_none())
}
