//! What can't be told of codes beside the chosen ones.
ghost use Rattle.std.specs.Prelude.{◌<◌, ◌≤◌, IfOk};
ghost use Rattle.pb_base.specs.declared.limits.TheConstants.{MOST_BUDGET};
ghost use Rattle.left_cars.specs.Left.{AreChosen};
ghost use Rattle.car_guards.specs.States.{AreForced, AreOpen, HasChosen, IsGone};

use book_model::Book;
use left_cars::{Freedom, free_codes};
use pb_base::{Day, Memory};
use std::alloc::Global;

/// Where states of codes are told, some good set has all chosen codes. A run would tell the states of cars that lack one of them.
#[tactic(auto, using(crate::proofs::StateLaws::has_chosen))]
pub fn what_is_left_has_the_chosen_codes(
    alloc: Global,
    book: &Book,
    day: Day,
    chosen: &[u32],
    budget: u32,
) -> Result<Freedom, Memory>
    requires chosen { AreChosen book.now chosen.now }
    requires some { 0 < budget }
    requires most { budget ≤ MOST_BUDGET }
    ensures { IfOk result (HasChosen book.now day chosen.now) }
{
    free_codes(alloc, book, day, chosen, budget)
}

/// Of an open code one car that is left has it, and another hasn't: what a search left is not told as open. A run would offer a code that
/// no car has.
#[tactic(auto, using(crate::proofs::StateLaws::are_open))]
pub fn open_codes_are_open(
    alloc: Global,
    book: &Book,
    day: Day,
    chosen: &[u32],
    budget: u32,
) -> Result<Freedom, Memory>
    requires chosen { AreChosen book.now chosen.now }
    requires some { 0 < budget }
    requires most { budget ≤ MOST_BUDGET }
    ensures { IfOk result (AreOpen book.now day chosen.now) }
{
    free_codes(alloc, book, day, chosen, budget)
}

/// Where nothing is told to be left, no good set has all chosen codes, also where the search was left. A run would end a choice that
/// could go on.
#[tactic(auto, using(crate::proofs::StateLaws::is_gone))]
pub fn no_car_is_called_gone(
    alloc: Global,
    book: &Book,
    day: Day,
    chosen: &[u32],
    budget: u32,
) -> Result<Freedom, Memory>
    requires chosen { AreChosen book.now chosen.now }
    requires some { 0 < budget }
    requires most { budget ≤ MOST_BUDGET }
    ensures { IfOk result (IsGone book.now day chosen.now) }
{
    free_codes(alloc, book, day, chosen, budget)
}

/// Each good set with the chosen codes has each forced code, and none has an excluded one: the first car that is found doesn't say so.
/// A run would keep from a buyer what he can have.
#[tactic(auto, using(crate::proofs::StateLaws::are_forced))]
pub fn what_is_forced_is_forced(
    alloc: Global,
    book: &Book,
    day: Day,
    chosen: &[u32],
    budget: u32,
) -> Result<Freedom, Memory>
    requires chosen { AreChosen book.now chosen.now }
    requires some { 0 < budget }
    requires most { budget ≤ MOST_BUDGET }
    ensures { IfOk result (AreForced book.now day chosen.now) }
{
    free_codes(alloc, book, day, chosen, budget)
}
