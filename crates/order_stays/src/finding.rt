//! Searches for a car of a day that has some codes.
//!
//! One solver over the rules of the day serves them all: the codes are assumed, and nothing is coded anew for them.
ghost use Rattle.std.specs.Prelude.{◌≡◌, ◌<◌, ◌≤◌, All, IfOk, length, map};
ghost use Rattle.pb_base.specs.declared.limits.TheConstants.{MOST_BUDGET, MOST_CODES};
ghost use Rattle.book_model.specs.Good.{is_good};
ghost use Rattle.clause_pool.specs.Literal.{literal};
ghost use Rattle.clausify.specs.Items.{rule_items};
ghost use Rattle.item_search.specs.Search.{IsOver, IsOutcome};
ghost use Rattle.order_stays.specs.Stays.{IsFoundWith, codes_literals};

use blame::{Told, find_or_blame};
use book_model::Book;
use clause_pool::{Lit, Pool};
use clausify::{Encoder, Start, add_rules};
use item_search::{Outcome, search, solver_over};
use pb_base::{CodeSet, Day, Formula, Memory};
use solver::Solver;
use std::alloc::Global;

/// What comes of a search for a car with some codes.
#[derive(Drop)]
pub(crate) enum Found {
    Car(CodeSet),
    NoCar,
    /// The search was left when these clauses had been learnt over those of the rules and of the codes.
    Undecided(Pool),
}

/// A solver over the rules of a day. Its first search is to show a car with as many of these codes as it can, the first ones first:
/// what the car has needs no search of its own. No car has all of the codes of a clash.
pub(crate) fn solver_for(
    alloc: Global,
    book: &Book,
    day: Day,
    chosen: &[u32],
    clash: &[u32],
) -> Result<Solver, Memory>
    ensures { IfOk result (IsOver (length book.now.codes) (rule_items book.now day)) }
{
    let mut starts = Vec::new(alloc);
    let mut solver = solver_of(alloc, book, day, &mut starts)?;
    hint_codes(alloc, &mut solver, chosen, clash)?;
    Ok(solver)
}

/// Hints that the next search should show these codes, the first ones first, but for the last one of a clash.
pub(crate) fn hint_codes(
    alloc: Global,
    solver: &mut Solver,
    chosen: &[u32],
    clash: &[u32],
) -> Result<(), Memory>
    ensures { solver.new ≡ solver.old }
{
    let mut hints = Vec::new(alloc);
    let mut clashes = true;
    // The last hint is taken first.
    for place in (0..chosen.len()).rev() {
        let code = chosen[place];
        if clashes && clash.iter().any(|one| *one == code) {
            clashes = false;
        } else {
            hints.push(Lit::new(code, true))?;
        }
    }
    solver.prefer(&hints);
    Ok(())
}

/// A solver over the rules of a day. Where the clauses of each begin comes behind the other starts.
pub(crate) fn solver_of(
    alloc: Global,
    book: &Book,
    day: Day,
    starts: &mut Vec<Start>,
) -> Result<Solver, Memory>
    ensures { IfOk result (IsOver (length book.now.codes) (rule_items book.now day)) }
{
    let mut encoder = Encoder::new(alloc, book.codes().len())?;
    add_rules(&mut encoder, starts, book, day)?;
    solver_over(alloc, encoder)
}

/// Looks for a car of the day that has these codes.
pub(crate) fn find_with(
    alloc: Global,
    book: &Book,
    day: Day,
    solver: &mut Solver,
    kept: &[u32],
    budget: u32,
) -> Result<Found, Memory>
    requires over { IsOver (length book.now.codes) (rule_items book.now day) solver.old }
    requires kept { All (λ c. c < length book.now.codes) kept.now }
    requires few { length kept.now ≤ MOST_CODES }
    requires some { 0 < budget }
    requires most { budget ≤ MOST_BUDGET }
    ensures over { IsOver (length book.now.codes) (rule_items book.now day) solver.new }
    ensures found { IfOk result (IsFoundWith book.now day kept.now budget) }
{
    let outcome = search_with(alloc, book, day, solver, kept, budget)?;
    match outcome {
        Outcome::Shown(car) => Ok(Found::Car(car)),
        Outcome::NotShown(_) => Ok(Found::NoCar),
        Outcome::Left(_) => find_anew(alloc, book, day, kept, budget),
    }
}

/// The same by the solver alone.
pub(crate) fn search_with(
    alloc: Global,
    book: &Book,
    day: Day,
    solver: &mut Solver,
    kept: &[u32],
    budget: u32,
) -> Result<Outcome, Memory>
    requires over { IsOver (length book.now.codes) (rule_items book.now day) solver.old }
    requires kept { All (λ c. c < length book.now.codes) kept.now }
    requires some { 0 < budget }
    requires most { budget ≤ MOST_BUDGET }
    ensures over { IsOver (length book.now.codes) (rule_items book.now day) solver.new }
    ensures outcome { let lits = codes_literals kept.now in
        IfOk result (IsOutcome (length book.now.codes) (rule_items book.now day) (is_good book.now day) lits budget) }
{
    book.codes();
    let lits = literals_of(alloc, kept)?;
    search(solver, &lits, budget)
}

// The literals that these codes are there.
fn literals_of(alloc: Global, kept: &[u32]) -> Result<Vec<Lit>, Memory>
    ensures { IfOk result (λ lits. lits.items ≡ codes_literals kept.now) }
{
    let mut lits = Vec::new(alloc);
    for code in kept {
        lits.push(Lit::new(*code, true))?;
    }
    Ok(lits)
}

// The same over clauses of the rules and of the codes, which are made for this search alone. What is learnt over them follows from
// them, and from no literal that is assumed.
fn find_anew(
    alloc: Global,
    book: &Book,
    day: Day,
    kept: &[u32],
    budget: u32,
) -> Result<Found, Memory>
    requires kept { All (λ c. c < length book.now.codes) kept.now }
    requires few { length kept.now ≤ MOST_CODES }
    requires some { 0 < budget }
    requires most { budget ≤ MOST_BUDGET }
    ensures { IfOk result (IsFoundWith book.now day kept.now budget) }
{
    let _codes = book.codes();
    let always = Formula::yes(alloc)?;
    let told = find_or_blame(alloc, book, day, kept, &always, budget)?;
    match told {
        Told::Car(car) => Ok(Found::Car(car)),
        Told::NoCar(_) => Ok(Found::NoCar),
        Told::Undecided(learnt) => Ok(Found::Undecided(learnt)),
    }
}
