//! Entries that are to blame, made fewer.
//!
//! Sets that meet more entries are fewer. So what was needed once stays needed where another entry goes, and one pass is enough. One
//! solver serves all tries of the pass, and keeps what it learns.
ghost use Rattle.std.specs.Prelude.{◌<◌, ◌≤◌, All, IfOk, IfSome, length};
ghost use Rattle.pb_base.specs.declared.limits.TheConstants.{MOST_BUDGET};
ghost use Rattle.book_model.specs.Book.{RuleFits};
ghost use Rattle.blame.specs.Entries.{EntryFits, Among};
ghost use Rattle.blame.specs.Blame.{AreFew, IsNone, IsBlame};
ghost use Rattle.blame.specs.Cases.{BlamesCase, FitsCase, GuardsCase, MarksCase};
ghost use Rattle.blame.specs.Guards.{IsGuarding};

use crate::blamed::Blamed;
use crate::case::Case;
use crate::entries::Entry;
use crate::guarding::guarded_solver;
use crate::kept::blamed_by_marks;
use crate::marks::{Marks, untried};
use crate::order::{from_the_last, least_used_first};
use crate::places::Places;
use crate::trying::{try_all, try_without};
use book_model::Book;
use pb_base::{Day, Formula, Memory};
use solver::Solver;
use std::alloc::Global;

/// Of entries that no set meets together with the rule, some that none meets either. Each of them is needed, unless a search
/// without it was left.
pub(crate) fn shrink(
    alloc: Global,
    book: &Book,
    day: Day,
    rule: &Formula,
    budget: u32,
    first: Vec<Entry>,
) -> Result<Blamed, Memory>
    requires fit { All (EntryFits book.now day) first.items }
    requires few { AreFew first.items }
    requires rule { RuleFits (length book.now.codes) rule.now }
    requires none { IsNone book.now day rule.now first.items }
    requires some { 0 < budget }
    requires most { budget ≤ MOST_BUDGET }
    ensures blame { IfOk result (λ m. IsBlame book.now day rule.now budget m.entries.items m.needed.items) }
    ensures among { IfOk result (λ m. Among first.items m.entries.items) }
{
    let mut solver = guarded_solver(alloc, book, day, rule, &first)?;
    shrink_by(alloc, book, day, rule, budget, &first, &mut solver)
}

/// The same of entries of which that isn't known. Nothing is told where a set meets them all and the rule, or the search for one was
/// left.
pub(crate) fn shrink_hinted(
    alloc: Global,
    book: &Book,
    day: Day,
    rule: &Formula,
    budget: u32,
    first: Vec<Entry>,
) -> Result<Option<Blamed>, Memory>
    requires fit { All (EntryFits book.now day) first.items }
    requires few { AreFew first.items }
    requires rule { RuleFits (length book.now.codes) rule.now }
    requires some { 0 < budget }
    requires most { budget ≤ MOST_BUDGET }
    ensures blame { IfOk result (λ found. IfSome found
        (λ m. IsBlame book.now day rule.now budget m.entries.items m.needed.items)) }
    ensures among { IfOk result (λ found. IfSome found (λ m. Among first.items m.entries.items)) }
{
    let mut solver = guarded_solver(alloc, book, day, rule, &first)?;
    shrink_hinted_by(alloc, book, day, rule, budget, &first, &mut solver)
}

// The same by a solver in which each entry has a guard.
fn shrink_hinted_by(
    alloc: Global,
    book: &Book,
    day: Day,
    rule: &Formula,
    budget: u32,
    first: &[Entry],
    solver: &mut Solver,
) -> Result<Option<Blamed>, Memory>
    requires few { AreFew first.now }
    requires rule { RuleFits (length book.now.codes) rule.now }
    requires guarding { IsGuarding book.now day rule.now first.now solver.old }
    requires some { 0 < budget }
    requires most { budget ≤ MOST_BUDGET }
    ensures blame { IfOk result (λ found. IfSome found
        (λ m. IsBlame book.now day rule.now budget m.entries.items m.needed.items)) }
    ensures among { IfOk result (λ found. IfSome found (λ m. Among first.now m.entries.items)) }
{
    let mut marks = untried(alloc, first.len())?;
    let case = Case {
        book,
        day,
        rule,
        entries: first,
    };
    let found = try_all(alloc, &case, budget, solver, &mut marks)?;
    let Some(place) = found else {
        return Ok(None);
    };
    let codes = book.codes().len();
    let order = least_used_first(alloc, solver.kernel(), place, codes, first.len())?;
    let blamed = shrink_on(alloc, &case, budget, solver, &mut marks, &order)?;
    Ok(Some(blamed))
}

// The same by a solver in which each entry has a guard.
fn shrink_by(
    alloc: Global,
    book: &Book,
    day: Day,
    rule: &Formula,
    budget: u32,
    first: &[Entry],
    solver: &mut Solver,
) -> Result<Blamed, Memory>
    requires few { AreFew first.now }
    requires rule { RuleFits (length book.now.codes) rule.now }
    requires none { IsNone book.now day rule.now first.now }
    requires guarding { IsGuarding book.now day rule.now first.now solver.old }
    requires some { 0 < budget }
    requires most { budget ≤ MOST_BUDGET }
    ensures blame { IfOk result (λ m. IsBlame book.now day rule.now budget m.entries.items m.needed.items) }
    ensures among { IfOk result (λ m. Among first.now m.entries.items) }
{
    let mut marks = untried(alloc, first.len())?;
    let order = from_the_last(alloc, first.len())?;
    let case = Case {
        book,
        day,
        rule,
        entries: first,
    };
    shrink_on(alloc, &case, budget, solver, &mut marks, &order)
}

// The same of those that are kept, one after another in this order.
fn shrink_on(
    alloc: Global,
    case: &Case,
    budget: u32,
    solver: &mut Solver,
    marks: &mut Marks,
    order: &[usize],
) -> Result<Blamed, Memory>
    requires few { AreFew case.now.entries.now }
    requires rule { FitsCase case.now }
    requires guarding { GuardsCase case.now solver.old }
    requires marked { MarksCase case.now budget marks.old }
    requires some { 0 < budget }
    requires most { budget ≤ MOST_BUDGET }
    ensures blame { IfOk result (BlamesCase case.now budget) }
    ensures among { IfOk result (λ m. Among case.now.entries.now m.entries.items) }
{
    let places = Places::of(alloc, case.book, case.entries)?;
    for at in order {
        try_without(alloc, case, budget, &places, solver, marks, *at)?;
    }
    // The order is a hint, and may lack some.
    for at in 0..case.entries.len() {
        try_without(alloc, case, budget, &places, solver, marks, at)?;
    }
    blamed_by_marks(alloc, case.entries, marks)
}
