//! Judging orders against a released book.
ghost use Rattle.std.specs.Prelude.{◌≡◌, ◌<◌, length, IfOk, IfSome};
ghost use Rattle.pb_base.specs.Answers.{Gives};
ghost use Rattle.parts_usage.specs.Outcome.{outcome_of};
ghost use Rattle.release.specs.Judged.{as_outcome, fitting_outcome, refused_by};
ghost use Rattle.supplement.specs.Completion.{completion_of};

use crate::released::Released;
use parts_usage::{OrderFault, PartsList, ordered_set, select};
use pb_base::{CodeName, CodeSet, Day, Fail, Memory};
use std::alloc::Global;

/// What an order against a released book comes to that has no fault.
#[derive(Drop)]
pub enum Judged {
    /// The order can be built: the completed set of its codes and its parts list.
    Accepted { set: CodeSet, list: PartsList },
    /// The constructibility rule at this place, counted from 0, is the first that the completed set breaks.
    Refused(u32),
}

/// What an order of these codes for this day comes to, or the order's fault. Any number of codes may be ordered. The parts of
/// an order that breaks no rule always fit.
pub fn judge(
    alloc: Global,
    released: &Released,
    day: Day,
    codes: &[CodeName],
) -> Result<Judged, Fail<OrderFault>>
    ensures outcome { Gives result as_outcome (outcome_of released.now.book day codes.now) }
    ensures rule { IfOk result (λ judged. IfSome (refused_by judged)
        (λ place. place < length released.now.book.constructs)) }
{
    let book = released.book();
    let _codes = book.codes();
    let ordered = ordered_set(alloc, book, day, codes)?;
    let judged = judge_ordered(alloc, released, day, ordered)?;
    Ok(judged)
}

// What the codes of an order come to that has no fault. Whether its parts fit isn't looked at.
fn judge_ordered(
    alloc: Global,
    released: &Released,
    day: Day,
    ordered: CodeSet,
) -> Result<Judged, Memory>
    requires { length ordered ≡ length released.now.book.codes }
    ensures outcome { let completed = completion_of released.now.book day ordered in
        IfOk result (λ judged. as_outcome judged ≡ fitting_outcome released.now.book day completed.set) }
    ensures rule { IfOk result (λ judged. IfSome (refused_by judged)
        (λ place. place < length released.now.book.constructs)) }
{
    let completed = released.complete(alloc, day, ordered)?;
    match released.first_broken(day, &completed.set) {
        Some(rule) => Ok(Judged::Refused(rule)),
        None => {
            let list = select(alloc, released.book(), day, &completed.set)?;
            Ok(Judged::Accepted {
                set: completed.set,
                list,
            })
        }
    }
}
