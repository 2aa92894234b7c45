//! What the supplementing rules of a book add to the codes of an order.
ghost use Rattle.std.specs.Prelude.{◌≡◌, IfOk, length};
ghost use Rattle.supplement.specs.Completion.{completion_of};

use pb_base::{CodeSet, Day, Memory};
use release::Released;
use std::alloc::Global;

/// A set of a book's codes with those that its supplementing rules add.
pub(crate) fn completed_set(
    alloc: Global,
    released: &Released,
    day: Day,
    ordered: CodeSet,
) -> Result<CodeSet, Memory>
    requires { length ordered ≡ length released.now.book.codes }
    ensures set { IfOk result (λ x. x ≡ (completion_of released.now.book day ordered).set) }
    ensures counted { IfOk result (λ x. length x ≡ length released.now.book.codes) }
{
    let completed = released.complete(alloc, day, ordered)?;
    Ok(completed.set)
}
