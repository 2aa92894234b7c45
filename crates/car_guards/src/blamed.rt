//! What can't be told of a rule that no car is found to meet.
ghost use Rattle.std.specs.Prelude.{◌<◌, ◌≤◌, All, IfOk, length};
ghost use Rattle.pb_base.specs.declared.limits.TheConstants.{MOST_BUDGET, MOST_CODES};
ghost use Rattle.book_model.specs.Book.{RuleFits};
ghost use Rattle.car_guards.specs.Blamed.{HidesNoCar, LeavesNone, NeededAreNeeded, OthersWereSearched};

use blame::{Told, find_or_blame};
use book_model::Book;
use pb_base::{Day, Formula, Memory};
use std::alloc::Global;

/// Where it is told that there is no car, no good set that has the codes meets the rule, also where a search was left. A run would send
/// away who could have a car.
#[tactic(auto, using(crate::proofs::BlamedLaws::hides_none))]
pub fn no_car_is_hidden(
    alloc: Global,
    book: &Book,
    day: Day,
    chosen: &[u32],
    rule: &Formula,
    budget: u32,
) -> Result<Told, Memory>
    requires chosen { All (λ c. c < length book.now.codes) chosen.now }
    requires few { length chosen.now ≤ MOST_CODES }
    requires rule { RuleFits (length book.now.codes) rule.now }
    requires some { 0 < budget }
    requires most { budget ≤ MOST_BUDGET }
    ensures { IfOk result (HidesNoCar book.now day chosen.now rule.now) }
{
    find_or_blame(alloc, book, day, chosen, rule, budget)
}

/// No set meets all that is blamed, and the rule: a second search shows that where fewer are blamed than the first one used. A run would
/// blame what leaves a car.
#[tactic(auto, using(crate::proofs::BlamedLaws::leaves_none))]
pub fn what_is_blamed_leaves_no_set(
    alloc: Global,
    book: &Book,
    day: Day,
    chosen: &[u32],
    rule: &Formula,
    budget: u32,
) -> Result<Told, Memory>
    requires chosen { All (λ c. c < length book.now.codes) chosen.now }
    requires few { length chosen.now ≤ MOST_CODES }
    requires rule { RuleFits (length book.now.codes) rule.now }
    requires some { 0 < budget }
    requires most { budget ≤ MOST_BUDGET }
    ensures { IfOk result (LeavesNone book.now day rule.now) }
{
    find_or_blame(alloc, book, day, chosen, rule, budget)
}

/// Without an entry that is called needed some set meets all others and the rule, so this one can't be passed over: a search that was
/// left calls none needed. A run would blame a code or a rule that has no part in it.
#[tactic(auto, using(crate::proofs::BlamedLaws::needed_are))]
pub fn what_is_called_needed_is_needed(
    alloc: Global,
    book: &Book,
    day: Day,
    chosen: &[u32],
    rule: &Formula,
    budget: u32,
) -> Result<Told, Memory>
    requires chosen { All (λ c. c < length book.now.codes) chosen.now }
    requires few { length chosen.now ≤ MOST_CODES }
    requires rule { RuleFits (length book.now.codes) rule.now }
    requires some { 0 < budget }
    requires most { budget ≤ MOST_BUDGET }
    ensures { IfOk result (NeededAreNeeded book.now day rule.now) }
{
    find_or_blame(alloc, book, day, chosen, rule, budget)
}

/// Of an entry that isn't called needed it was tried to do without: such a search was left when it had learnt as many clauses as the
/// budget allows. A run would tell entries that nobody tried.
#[tactic(auto, using(crate::proofs::BlamedLaws::others_were))]
pub fn what_is_not_needed_was_searched(
    alloc: Global,
    book: &Book,
    day: Day,
    chosen: &[u32],
    rule: &Formula,
    budget: u32,
) -> Result<Told, Memory>
    requires chosen { All (λ c. c < length book.now.codes) chosen.now }
    requires few { length chosen.now ≤ MOST_CODES }
    requires rule { RuleFits (length book.now.codes) rule.now }
    requires some { 0 < budget }
    requires most { budget ≤ MOST_BUDGET }
    ensures { IfOk result (OthersWereSearched book.now day rule.now budget) }
{
    find_or_blame(alloc, book, day, chosen, rule, budget)
}
