//! What can't be told of codes that are to stay together.
ghost use Rattle.std.specs.Prelude.{◌<◌, ◌≤◌, All, IfOk, length};
ghost use Rattle.pb_base.specs.declared.limits.TheConstants.{MOST_BUDGET, MOST_CODES};
ghost use Rattle.car_guards.specs.Staying.{LeavesOutNone};

use book_model::Book;
use order_stays::{Staying, codes_that_stay};
use pb_base::{Day, Memory};
use std::alloc::Global;

/// A code that is left out stands in no good set beside all those that stay, also where a search was left. A run would strike a code off
/// an order that could have it.
#[tactic(auto, using(crate::proofs::StayLaws::leaves_out_none))]
pub fn no_code_is_left_out_beside_which_a_car_stands(
    alloc: Global,
    book: &Book,
    day: Day,
    chosen: &[u32],
    budget: u32,
) -> Result<Staying, Memory>
    requires chosen { All (λ c. c < length book.now.codes) chosen.now }
    requires few { length chosen.now ≤ MOST_CODES }
    requires some { 0 < budget }
    requires most { budget ≤ MOST_BUDGET }
    ensures { IfOk result (LeavesOutNone book.now day chosen.now) }
{
    codes_that_stay(alloc, book, day, chosen, budget)
}
