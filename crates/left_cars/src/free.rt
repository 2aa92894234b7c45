//! What can still be chosen beside some codes.
ghost use Rattle.std.specs.Prelude.{◌≡◌, ◌*◌, ◌<◌, ◌≤◌, ◌∷◌, [], IfOk, true, false, length, if◌then◌else◌};
ghost use Rattle.pb_base.specs.declared.limits.TheConstants.{MOST_BUDGET};
ghost use Rattle.clause_pool.specs.Literal.{literal};
ghost use Rattle.propagate.specs.Quiet.{IsConsistent};
ghost use Rattle.propagate.specs.Trail.{AreLiterals};
ghost use Rattle.item_search.specs.Search.{IsOver, IsOutcome};
ghost use Rattle.left_cars.specs.Freedom.{HasStates, IsFree, IsState};
ghost use Rattle.left_cars.specs.Left.{is_chosen, is_left, left_items, AreChosen, IsShown};
ghost use Rattle.left_cars.specs.Seen.{AllSeen, IsSeen};
ghost use Rattle.left_cars.specs.declared.states.CodeState.TheVariants as state;

use crate::asking::begin;
use crate::hints::Hints;
use crate::seen::{Seen, none_seen, see};
use crate::states::{CodeState, Freedom};
use book_model::Book;
use clause_pool::Lit;
use item_search::{Outcome, search};
use pb_base::{CodeSet, Day, Memory};
use solver::Solver;
use std::alloc::Global;

/// What can still be chosen on a day beside codes, which are told by their places in the book, counted from 0. A search is left
/// where so many clauses were learnt for it, each of which says what propagation did not.
pub fn free_codes(
    alloc: Global,
    book: &Book,
    day: Day,
    chosen: &[u32],
    budget: u32,
) -> Result<Freedom, Memory>
    requires chosen { AreChosen book.now chosen.now }
    requires some { 0 < budget }
    requires most { budget ≤ MOST_BUDGET }
    ensures { IfOk result (IsFree book.now day chosen.now budget) }
{
    let mut found = 0;
    free_counted(alloc, book, day, chosen, budget, &mut found)
}

/// The same. The searches that find a car are added to a count: each shows as many further values of codes as it can, so there
/// are few of them, which a test bounds. No contract speaks of it.
pub fn free_counted(
    alloc: Global,
    book: &Book,
    day: Day,
    chosen: &[u32],
    budget: u32,
    found: &mut u32,
) -> Result<Freedom, Memory>
    requires chosen { AreChosen book.now chosen.now }
    requires some { 0 < budget }
    requires most { budget ≤ MOST_BUDGET }
    ensures { IfOk result (IsFree book.now day chosen.now budget) }
{
    let mut solver = begin(alloc, book, day, chosen)?;
    let outcome = ask(book, day, chosen, &[], budget, &mut solver)?;
    match outcome {
        Outcome::NotShown(_) => Ok(Freedom::NoneLeft),
        Outcome::Left(learnt) => Ok(Freedom::NotDecided(learnt)),
        Outcome::Shown(car) => {
            let states = states_from(alloc, book, day, chosen, budget, &mut solver, &car, found)?;
            Ok(Freedom::Codes(states))
        }
    }
}

// Looks for a car that is left, of which these literals of codes are true.
fn ask(
    book: &Book,
    day: Day,
    chosen: &[u32],
    lits: &[Lit],
    budget: u32,
    solver: &mut Solver,
) -> Result<Outcome, Memory>
    requires chosen { AreChosen book.now chosen.now }
    requires below { AreLiterals lits.now (2 * length book.now.codes) }
    requires consistent { IsConsistent lits.now }
    requires some { 0 < budget }
    requires most { budget ≤ MOST_BUDGET }
    requires over { IsOver (length book.now.codes) (left_items book.now day chosen.now) solver.old }
    ensures over { IsOver (length book.now.codes) (left_items book.now day chosen.now) solver.new }
    ensures outcome { let items = left_items book.now day chosen.now in let test = is_left book.now day chosen.now in
        IfOk result (IsOutcome (length book.now.codes) items test lits.now budget) }
{
    book.codes();
    search(solver, lits, budget)
}

// Looks for one that shows this value of a code.
fn ask_value(
    book: &Book,
    day: Day,
    chosen: &[u32],
    place: u32,
    value: bool,
    budget: u32,
    solver: &mut Solver,
) -> Result<Outcome, Memory>
    requires chosen { AreChosen book.now chosen.now }
    requires place { place < length book.now.codes }
    requires some { 0 < budget }
    requires most { budget ≤ MOST_BUDGET }
    requires over { IsOver (length book.now.codes) (left_items book.now day chosen.now) solver.old }
    ensures over { IsOver (length book.now.codes) (left_items book.now day chosen.now) solver.new }
    ensures outcome { let items = left_items book.now day chosen.now in let test = is_left book.now day chosen.now in
        IfOk result (IsOutcome (length book.now.codes) items test (literal place value ∷ []) budget) }
{
    let lit = Lit::new(place, value);
    ask(book, day, chosen, &[lit], budget, solver)
}

// The states of all codes, from the first car that was found.
#[tactic(auto, using(crate::proofs::StateLaws::states_more))]
fn states_from(
    alloc: Global,
    book: &Book,
    day: Day,
    chosen: &[u32],
    budget: u32,
    solver: &mut Solver,
    car: &CodeSet,
    found: &mut u32,
) -> Result<Vec<CodeState>, Memory>
    requires chosen { AreChosen book.now chosen.now }
    requires some { 0 < budget }
    requires most { budget ≤ MOST_BUDGET }
    requires over { IsOver (length book.now.codes) (left_items book.now day chosen.now) solver.old }
    requires left { is_left book.now day chosen.now car.now ≡ true }
    requires counted { length car.now ≡ length book.now.codes }
    ensures { IfOk result (λ states. HasStates book.now day chosen.now budget states.items) }
{
    let mut seen = none_seen(alloc, book, day, chosen)?;
    let mut hints = Hints::none(alloc);
    see_one(book, day, chosen, &mut seen, &mut hints, car, found)?;
    let mut states = Vec::new(alloc);
    for place in 0..car.len() {
        let state = state_of(
            book, day, chosen, budget, solver, &mut seen, &mut hints, found, place,
        )?;
        states.push(state)?;
    }
    Ok(states)
}

// Notes what a car shows that was found, and hints that the next ones should show what none has shown.
fn see_one(
    book: &Book,
    day: Day,
    chosen: &[u32],
    seen: &mut Seen,
    hints: &mut Hints,
    car: &CodeSet,
    found: &mut u32,
) -> Result<(), Memory>
    requires seen { IsSeen book.now day chosen.now seen.old }
    requires left { is_left book.now day chosen.now car.now ≡ true }
    requires counted { length car.now ≡ length book.now.codes }
    ensures seen { IsSeen book.now day chosen.now seen.new }
    ensures all { AllSeen (length book.now.codes) seen.new }
{
    see(book, day, chosen, seen, car);
    *found = found.saturating_add(1);
    hints.renew(seen)
}

// The state of a code. What a car shows that is found for it is noted.
fn state_of(
    book: &Book,
    day: Day,
    chosen: &[u32],
    budget: u32,
    solver: &mut Solver,
    seen: &mut Seen,
    hints: &mut Hints,
    found: &mut u32,
    place: u32,
) -> Result<CodeState, Memory>
    requires chosen { AreChosen book.now chosen.now }
    requires some { 0 < budget }
    requires most { budget ≤ MOST_BUDGET }
    requires over { IsOver (length book.now.codes) (left_items book.now day chosen.now) solver.old }
    requires seen { IsSeen book.now day chosen.now seen.old }
    requires all { AllSeen (length book.now.codes) seen.old }
    requires place { place < length book.now.codes }
    ensures over { IsOver (length book.now.codes) (left_items book.now day chosen.now) solver.new }
    ensures seen { IsSeen book.now day chosen.now seen.new }
    ensures all { AllSeen (length book.now.codes) seen.new }
    ensures state { IfOk result (IsState book.now day chosen.now budget place) }
{
    if is_chosen(chosen, place) {
        return Ok(CodeState::Ordered);
    }
    match seen.only_value(place) {
        Some(value) => state_beside(
            book, day, chosen, budget, solver, seen, hints, found, place, value,
        ),
        None => Ok(CodeState::Open),
    }
}

fn is_chosen(chosen: &[u32], place: u32) -> bool
    ensures { result ≡ is_chosen chosen.now place }
{
    chosen.iter().any(|code| *code == place)
}

// The state of a code of which some car shows this value. The other value is looked for.
fn state_beside(
    book: &Book,
    day: Day,
    chosen: &[u32],
    budget: u32,
    solver: &mut Solver,
    seen: &mut Seen,
    hints: &mut Hints,
    found: &mut u32,
    place: u32,
    value: bool,
) -> Result<CodeState, Memory>
    requires chosen { AreChosen book.now chosen.now }
    requires further { is_chosen chosen.now place ≡ false }
    requires some { 0 < budget }
    requires most { budget ≤ MOST_BUDGET }
    requires over { IsOver (length book.now.codes) (left_items book.now day chosen.now) solver.old }
    requires seen { IsSeen book.now day chosen.now seen.old }
    requires all { AllSeen (length book.now.codes) seen.old }
    requires place { place < length book.now.codes }
    requires shown { IsShown book.now day chosen.now place value }
    ensures over { IsOver (length book.now.codes) (left_items book.now day chosen.now) solver.new }
    ensures seen { IsSeen book.now day chosen.now seen.new }
    ensures all { AllSeen (length book.now.codes) seen.new }
    ensures state { IfOk result (IsState book.now day chosen.now budget place) }
{
    hints.point(solver);
    let outcome = ask_value(book, day, chosen, place, !value, budget, solver)?;
    match outcome {
        Outcome::Shown(car) => {
            let noted = see_one(book, day, chosen, seen, hints, &car, found);
            state_when(noted)
        }
        Outcome::NotShown(_) => Ok(refuted(value)),
        Outcome::Left(learnt) => Ok(CodeState::Undecided(learnt)),
    }
}

// The state of a code that is open, unless memory was wanting.
fn state_when(noted: Result<(), Memory>) -> Result<CodeState, Memory>
    ensures { IfOk result (λ s. s ≡ state.Open) }
{
    noted?;
    Ok(CodeState::Open)
}

// The state of a code that each car shows with this value.
fn refuted(value: bool) -> CodeState
    ensures { result ≡ (if value then state.Forced else state.Excluded) }
{
    if value {
        CodeState::Forced
    } else {
        CodeState::Excluded
    }
}
