//! Searches for a set that meets entries and a rule.
ghost use Rattle.std.specs.Prelude.{◌<◌, ◌≤◌, All, IfOk, length};
ghost use Rattle.pb_base.specs.declared.limits.TheConstants.{MOST_BUDGET};
ghost use Rattle.book_model.specs.Book.{RuleFits};
ghost use Rattle.item_search.specs.Search.{IsOver};
ghost use Rattle.blame.specs.Entries.{EntryFits};
ghost use Rattle.blame.specs.Blame.{AreFew, blame_items, IsLooked};

use crate::coding::begin;
use crate::entries::Entry;
use crate::used::used_marks;
use book_model::Book;
use clause_pool::Ref;
use item_search::{Outcome, search};
use pb_base::{Day, Formula, Memory};
use solver::Solver;
use std::alloc::Global;

/// What comes of a search.
#[derive(Drop)]
pub(crate) struct Looked {
    pub(crate) outcome: Outcome,
    /// Where there is no such set, for each entry whether the search used it. That is a hint.
    pub(crate) marks: Vec<bool>,
}

/// Looks for a set that meets the entries and the rule.
pub(crate) fn look(
    alloc: Global,
    book: &Book,
    day: Day,
    rule: &Formula,
    entries: &[Entry],
    budget: u32,
) -> Result<Looked, Memory>
    requires fit { All (EntryFits book.now day) entries.now }
    requires few { AreFew entries.now }
    requires rule { RuleFits (length book.now.codes) rule.now }
    requires some { 0 < budget }
    requires most { budget ≤ MOST_BUDGET }
    ensures { IfOk result (λ looked. IsLooked book.now day rule.now entries.now budget looked.outcome) }
{
    let mut starts = Vec::new(alloc);
    let mut solver = begin(alloc, book, day, rule, entries, &mut starts)?;
    look_by(
        alloc,
        book,
        day,
        rule,
        entries,
        budget,
        &mut solver,
        &starts,
    )
}

// The same by a solver that is over them.
fn look_by(
    alloc: Global,
    book: &Book,
    day: Day,
    rule: &Formula,
    entries: &[Entry],
    budget: u32,
    solver: &mut Solver,
    starts: &[Ref],
) -> Result<Looked, Memory>
    requires fit { All (EntryFits book.now day) entries.now }
    requires rule { RuleFits (length book.now.codes) rule.now }
    requires over { IsOver (length book.now.codes) (blame_items book.now entries.now rule.now) solver.old }
    requires some { 0 < budget }
    requires most { budget ≤ MOST_BUDGET }
    ensures { IfOk result (λ looked. IsLooked book.now day rule.now entries.now budget looked.outcome) }
{
    let _codes = book.codes();
    let outcome = search(solver, &[], budget)?;
    let marks = marks_of(alloc, solver, &outcome, starts)?;
    Ok(Looked { outcome, marks })
}

// Which entries a search used that found none.
fn marks_of(
    alloc: Global,
    solver: &Solver,
    outcome: &Outcome,
    starts: &[Ref],
) -> Result<Vec<bool>, Memory> {
    match outcome {
        Outcome::NotShown(at) => used_marks(alloc, solver.kernel(), *at, starts),
        Outcome::Shown(_) => Ok(Vec::new(alloc)),
        Outcome::Left(_) => Ok(Vec::new(alloc)),
    }
}
