//! The search for codes that stay.
//!
//! A code stays just where some car has it and all that stay before it. More codes leave fewer cars; so what can't stay beside these
//! can't stay beside all that stay in the end.
ghost use Rattle.std.specs.Prelude.{◌≡◌, ◌<◌, ◌≤◌, [], All, IfOk, IfSome, length};
ghost use Rattle.pb_base.specs.declared.limits.TheConstants.{MOST_BUDGET, MOST_CODES};
ghost use Rattle.clausify.specs.Items.{rule_items};
ghost use Rattle.item_search.specs.Search.{IsOver};
ghost use Rattle.order_stays.specs.Stays.{IsCarWith, IsStaying, IsTried, NoneWith};

use crate::clash::find_unless;
use crate::finding::{Found, find_with, solver_for};
use crate::stay::{Stay, Staying};
use book_model::Book;
use clause_pool::Pool;
use pb_base::{CodeSet, Day, Memory};
use solver::Solver;
use std::alloc::Global;

/// Of codes, from the first to the last, those that some car of the day has beside all that stay before it. The codes are told by
/// their places in the book, counted from 0.
pub fn codes_that_stay(
    alloc: Global,
    book: &Book,
    day: Day,
    chosen: &[u32],
    budget: u32,
) -> Result<Staying, Memory>
    requires chosen { All (λ c. c < length book.now.codes) chosen.now }
    requires few { length chosen.now ≤ MOST_CODES }
    requires some { 0 < budget }
    requires most { budget ≤ MOST_BUDGET }
    ensures { IfOk result (IsStaying book.now day chosen.now budget) }
{
    let mut solver = solver_for(alloc, book, day, chosen, &[])?;
    staying_with(alloc, book, day, chosen, budget, &mut solver, None)
}

/// The same where it is known of some codes that no car has them all.
pub(crate) fn staying_known(
    alloc: Global,
    book: &Book,
    day: Day,
    chosen: &[u32],
    budget: u32,
    clash: &[u32],
) -> Result<Staying, Memory>
    requires chosen { All (λ c. c < length book.now.codes) chosen.now }
    requires few { length chosen.now ≤ MOST_CODES }
    requires clash { NoneWith book.now day clash.now }
    requires some { 0 < budget }
    requires most { budget ≤ MOST_BUDGET }
    ensures { IfOk result (IsStaying book.now day chosen.now budget) }
{
    let mut solver = solver_for(alloc, book, day, chosen, clash)?;
    staying_by(alloc, book, day, chosen, budget, &mut solver, clash)
}

/// The same by a solver over the rules of the day.
pub(crate) fn staying_by(
    alloc: Global,
    book: &Book,
    day: Day,
    chosen: &[u32],
    budget: u32,
    solver: &mut Solver,
    clash: &[u32],
) -> Result<Staying, Memory>
    requires chosen { All (λ c. c < length book.now.codes) chosen.now }
    requires few { length chosen.now ≤ MOST_CODES }
    requires clash { NoneWith book.now day clash.now }
    requires over { IsOver (length book.now.codes) (rule_items book.now day) solver.old }
    requires some { 0 < budget }
    requires most { budget ≤ MOST_BUDGET }
    ensures { IfOk result (IsStaying book.now day chosen.now budget) }
{
    staying_with(alloc, book, day, chosen, budget, solver, Some(clash))
}

// The same where that may be known.
fn staying_with(
    alloc: Global,
    book: &Book,
    day: Day,
    chosen: &[u32],
    budget: u32,
    solver: &mut Solver,
    clash: Option<&[u32]>,
) -> Result<Staying, Memory>
    requires chosen { All (λ c. c < length book.now.codes) chosen.now }
    requires few { length chosen.now ≤ MOST_CODES }
    requires clash { IfSome clash (λ codes. NoneWith book.now day codes.now) }
    requires over { IsOver (length book.now.codes) (rule_items book.now day) solver.old }
    requires some { 0 < budget }
    requires most { budget ≤ MOST_BUDGET }
    ensures { IfOk result (IsStaying book.now day chosen.now budget) }
{
    let found = find_with(alloc, book, day, solver, &[], budget)?;
    match found {
        Found::Car(car) => stay_from(alloc, book, day, chosen, budget, solver, clash, car),
        Found::NoCar => Ok(Staying::NoCar),
        Found::Undecided(learnt) => Ok(Staying::Undecided(learnt)),
    }
}

// The same where there is a car.
fn stay_from(
    alloc: Global,
    book: &Book,
    day: Day,
    chosen: &[u32],
    budget: u32,
    solver: &mut Solver,
    clash: Option<&[u32]>,
    car: CodeSet,
) -> Result<Staying, Memory>
    requires chosen { All (λ c. c < length book.now.codes) chosen.now }
    requires few { length chosen.now ≤ MOST_CODES }
    requires clash { IfSome clash (λ codes. NoneWith book.now day codes.now) }
    requires over { IsOver (length book.now.codes) (rule_items book.now day) solver.old }
    requires car { IsCarWith book.now day [] car }
    requires some { 0 < budget }
    requires most { budget ≤ MOST_BUDGET }
    ensures { IfOk result (IsStaying book.now day chosen.now budget) }
{
    let mut stay = Stay {
        kept: Vec::new(alloc),
        car,
    };
    for code in chosen {
        let left = try_code(alloc, book, day, budget, solver, clash, &mut stay, *code)?;
        match left {
            Some(learnt) => return Ok(Staying::Undecided(learnt)),
            None => {}
        }
    }
    Ok(Staying::Codes(stay))
}

// Puts one more code to those that stay, if some car has it beside them. What was learnt where the search was left.
fn try_code(
    alloc: Global,
    book: &Book,
    day: Day,
    budget: u32,
    solver: &mut Solver,
    clash: Option<&[u32]>,
    stay: &mut Stay,
    code: u32,
) -> Result<Option<Pool>, Memory>
    requires clash { IfSome clash (λ codes. NoneWith book.now day codes.now) }
    requires over { IsOver (length book.now.codes) (rule_items book.now day) solver.old }
    requires within { code < length book.now.codes }
    requires kept { All (λ c. c < length book.now.codes) stay.old.kept.items }
    requires few { length stay.old.kept.items < MOST_CODES }
    requires car { IsCarWith book.now day stay.old.kept.items stay.old.car }
    requires some { 0 < budget }
    requires most { budget ≤ MOST_BUDGET }
    ensures over { IsOver (length book.now.codes) (rule_items book.now day) solver.new }
    ensures tried { IfOk result (IsTried book.now day budget code stay.old stay.new) }
{
    stay.kept.push(code)?;
    if stay.car.has(code) {
        return Ok(None);
    }
    let found = find_unless(alloc, book, day, solver, &stay.kept, budget, clash)?;
    match found {
        Found::Car(car) => {
            stay.car = car;
            Ok(None)
        }
        Found::NoCar => {
            stay.kept.pop();
            Ok(None)
        }
        Found::Undecided(learnt) => Ok(Some(learnt)),
    }
}
