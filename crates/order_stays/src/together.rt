//! Whether codes can stay together, and what is to blame if they can't.
//!
//! One solver over the rules of the day serves the search for a car that has them all, the hint what is to blame that there is none, and
//! the searches for the codes that stay. Rules in which one of the codes stands, and those that are linked with these, are looked at
//! before: a clash as a rule is by these.
ghost use Rattle.std.specs.Prelude.{◌≡◌, ◌<◌, ◌≤◌, All, IfOk, length};
ghost use Rattle.pb_base.specs.Rule.{always as true_rule};
ghost use Rattle.pb_base.specs.declared.limits.TheConstants.{MOST_BUDGET, MOST_CODES};
ghost use Rattle.clausify.specs.Items.{rule_items};
ghost use Rattle.item_search.specs.Search.{IsOver};
ghost use Rattle.blame.specs.Blame.{AreBlamed};
ghost use Rattle.order_stays.specs.Stays.{IsTogether};

use crate::clash::codes_of;
use crate::finding::{hint_codes, search_with, solver_of};
use crate::stay::Together;
use crate::staying::{staying_by, staying_known};
use blame::{Blamed, Told, blame_by, blame_near, find_or_blame};
use book_model::Book;
use clause_pool::Ref;
use clausify::Start;
use item_search::Outcome;
use pb_base::{Day, Formula, Memory};
use solver::Solver;
use std::alloc::Global;

/// A car of the day that has all these codes; or what is to blame that none has, with the codes that stay. The codes are told by their
/// places in the book, counted from 0.
pub fn stay_or_blame(
    alloc: Global,
    book: &Book,
    day: Day,
    chosen: &[u32],
    budget: u32,
) -> Result<Together, Memory>
    requires chosen { All (λ c. c < length book.now.codes) chosen.now }
    requires few { length chosen.now ≤ MOST_CODES }
    requires some { 0 < budget }
    requires most { budget ≤ MOST_BUDGET }
    ensures { IfOk result (IsTogether book.now day chosen.now budget) }
{
    let _codes = book.codes();
    let always = Formula::yes(alloc)?;
    let near = blame_near(alloc, book, day, chosen, &always, budget)?;
    match near {
        Some(clash) => apart(alloc, book, day, chosen, budget, clash),
        None => search_together(alloc, book, day, chosen, budget, &always),
    }
}

// These are to blame.
fn apart(
    alloc: Global,
    book: &Book,
    day: Day,
    chosen: &[u32],
    budget: u32,
    clash: Blamed,
) -> Result<Together, Memory>
    requires chosen { All (λ c. c < length book.now.codes) chosen.now }
    requires few { length chosen.now ≤ MOST_CODES }
    requires clash { AreBlamed book.now day chosen.now true_rule budget clash }
    requires some { 0 < budget }
    requires most { budget ≤ MOST_BUDGET }
    ensures { IfOk result (IsTogether book.now day chosen.now budget) }
{
    let codes = codes_of(alloc, &clash.entries)?;
    let staying = staying_known(alloc, book, day, chosen, budget, &codes)?;
    Ok(Together::Apart(clash, staying))
}

// The same where the rules that are near leave a set.
fn search_together(
    alloc: Global,
    book: &Book,
    day: Day,
    chosen: &[u32],
    budget: u32,
    always: &Formula,
) -> Result<Together, Memory>
    requires chosen { All (λ c. c < length book.now.codes) chosen.now }
    requires few { length chosen.now ≤ MOST_CODES }
    requires always { always.now ≡ true_rule }
    requires some { 0 < budget }
    requires most { budget ≤ MOST_BUDGET }
    ensures { IfOk result (IsTogether book.now day chosen.now budget) }
{
    let mut starts = Vec::new(alloc);
    let mut solver = solver_of(alloc, book, day, &mut starts)?;
    let outcome = search_with(alloc, book, day, &mut solver, chosen, budget)?;
    match outcome {
        Outcome::Shown(car) => Ok(Together::Car(car)),
        Outcome::NotShown(at) => blame_closed(
            alloc,
            book,
            day,
            chosen,
            budget,
            always,
            &mut solver,
            at,
            &starts,
        ),
        Outcome::Left(_) => told_anew(alloc, book, day, chosen, budget, always),
    }
}

// What is to blame by the clause at a place of the solver's kernel.
fn blame_closed(
    alloc: Global,
    book: &Book,
    day: Day,
    chosen: &[u32],
    budget: u32,
    always: &Formula,
    solver: &mut Solver,
    at: Ref,
    starts: &[Start],
) -> Result<Together, Memory>
    requires chosen { All (λ c. c < length book.now.codes) chosen.now }
    requires few { length chosen.now ≤ MOST_CODES }
    requires always { always.now ≡ true_rule }
    requires over { IsOver (length book.now.codes) (rule_items book.now day) solver.old }
    requires some { 0 < budget }
    requires most { budget ≤ MOST_BUDGET }
    ensures { IfOk result (IsTogether book.now day chosen.now budget) }
{
    let firsts = clauses_of(alloc, starts)?;
    let kernel = solver.kernel();
    let hinted = blame_by(
        alloc, book, day, chosen, always, budget, kernel, at, &firsts,
    )?;
    match hinted {
        Some(clash) => apart_with(alloc, book, day, chosen, budget, solver, clash),
        None => told_anew(alloc, book, day, chosen, budget, always),
    }
}

fn clauses_of(alloc: Global, starts: &[Start]) -> Result<Vec<Ref>, Memory> {
    let mut firsts = Vec::new(alloc);
    for start in starts {
        firsts.push(start.clause)?;
    }
    Ok(firsts)
}

// These are to blame. The solver has learnt why no car has all the codes.
fn apart_with(
    alloc: Global,
    book: &Book,
    day: Day,
    chosen: &[u32],
    budget: u32,
    solver: &mut Solver,
    clash: Blamed,
) -> Result<Together, Memory>
    requires chosen { All (λ c. c < length book.now.codes) chosen.now }
    requires few { length chosen.now ≤ MOST_CODES }
    requires clash { AreBlamed book.now day chosen.now true_rule budget clash }
    requires over { IsOver (length book.now.codes) (rule_items book.now day) solver.old }
    requires some { 0 < budget }
    requires most { budget ≤ MOST_BUDGET }
    ensures { IfOk result (IsTogether book.now day chosen.now budget) }
{
    let codes = codes_of(alloc, &clash.entries)?;
    hint_codes(alloc, solver, chosen, &codes)?;
    let staying = staying_by(alloc, book, day, chosen, budget, solver, &codes)?;
    Ok(Together::Apart(clash, staying))
}

// The same by all rules, with no literal assumed.
fn told_anew(
    alloc: Global,
    book: &Book,
    day: Day,
    chosen: &[u32],
    budget: u32,
    always: &Formula,
) -> Result<Together, Memory>
    requires chosen { All (λ c. c < length book.now.codes) chosen.now }
    requires few { length chosen.now ≤ MOST_CODES }
    requires always { always.now ≡ true_rule }
    requires some { 0 < budget }
    requires most { budget ≤ MOST_BUDGET }
    ensures { IfOk result (IsTogether book.now day chosen.now budget) }
{
    let _codes = book.codes();
    let told = find_or_blame(alloc, book, day, chosen, always, budget)?;
    match told {
        Told::Car(car) => Ok(Together::Car(car)),
        Told::NoCar(clash) => apart(alloc, book, day, chosen, budget, clash),
        Told::Undecided(learnt) => Ok(Together::Undecided(learnt)),
    }
}
