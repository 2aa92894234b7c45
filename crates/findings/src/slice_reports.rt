//! The reports of slices, one for each.
ghost use Rattle.std.specs.Prelude.{◌≡◌, ◌+◌, ◌*◌, ◌<◌, ◌≤◌, All, IfOk, OnOk, length};
ghost use Rattle.std.specs.List.{AllZip};
ghost use Rattle.book_clauses.specs.BookClauses.{AreUsages, CodesBook};
ghost use Rattle.book_model.specs.Activity.{is_within};
ghost use Rattle.chains.specs.Growth.{given_of};
ghost use Rattle.clause_pool.specs.Clause.{AreBelow};
ghost use Rattle.slice_hints.specs.Found.{IsFound};
ghost use Rattle.findings.specs.Answering.{inquiry};
ghost use Rattle.findings.specs.Checkable.{IsCheckable, IsEffort};
ghost use Rattle.findings.specs.Core.{IsKnown, IsOverBook, periods_of};
ghost use Rattle.findings.specs.Notes.{SliceNotes};
ghost use Rattle.pb_base.specs.declared.limits.TheConstants.{MOST_BUDGET};
ghost use Rattle.pb_base.specs.InParts.{InParts};

use crate::book_known::BookKnown;
use crate::core_report::{Asking, report_core};
use crate::earlier::Earlier;
use crate::laws::book_laws;
use crate::report::{Note, Report};
use crate::slice::{SliceCheck, check_slice};
use crate::task::{Effort, SliceTask};
use book_clauses::{BookClauses, book_clauses, periods_on};
use book_model::{Book, Slice, active};
use clause_pool::{Kernel, Lit, Pool};
use clausify::Layout;
use pb_base::{Day, Memory};
use shared_work::Work;
use slice_hints::Sets;
use solver::Solver;
use std::alloc::Global;
use std::mem::replace;

/// A book whose slices are asked. The notes of a slice are made of it.
#[derive(Clone, Copy)]
pub(crate) struct SliceReports<'a> {
    pub book: &'a Book,
    pub effort: Effort,
}

impl<'a> Work for SliceReports<'a> {
    type Item = Slice;

    type Made = Report;

    ghost IsReady = { λ w. IsEffort w.effort };

    ghost IsGiven = { λ w. IsCheckable w.book.now };

    ghost IsMade = { λ w. SliceNotes (inquiry w.book.now w.effort) };

    fn make(&self, alloc: Global, slices: &[Slice]) -> Result<Vec<Report>, Memory> {
        reports_of(alloc, self.book, slices, self.effort)
    }
}

/// The notes of each slice. One solver over the clauses of the book answers for all of them.
pub(crate) fn reports_of(
    alloc: Global,
    book: &Book,
    slices: &[Slice],
    effort: Effort,
) -> Result<Vec<Report>, Memory>
    requires slices { All (IsCheckable book.now) slices.now }
    requires some { 0 < effort.budget }
    requires budget { effort.budget ≤ MOST_BUDGET }
    ensures { IfOk result (λ reports. AllZip (SliceNotes (inquiry book.now effort)) slices.now reports.items) }
{
    let made = book_clauses(alloc, book)?;
    reports_over(alloc, book, slices, effort, made)
}

// The same by these clauses of the book.
fn reports_over(
    alloc: Global,
    book: &Book,
    slices: &[Slice],
    effort: Effort,
    made: BookClauses,
) -> Result<Vec<Report>, Memory>
    requires slices { All (IsCheckable book.now) slices.now }
    requires some { 0 < effort.budget }
    requires budget { effort.budget ≤ MOST_BUDGET }
    requires codes { CodesBook book.now made.periods.items made.pool.clauses }
    requires below { AreBelow (2 * made.vars) made.pool.clauses }
    requires periods { length book.now.codes + length made.periods.items < made.vars }
    requires usages { AreUsages book.now made.pool.clauses made.vars made.usages.items }
    ensures { IfOk result (λ reports. AllZip (SliceNotes (inquiry book.now effort)) slices.now reports.items) }
{
    let BookClauses {
        pool,
        vars,
        layout,
        usages,
        periods,
    } = made;
    let mut solver = solver_over(alloc, book, pool, vars)?;
    let coded = CodedBook {
        layout: &layout,
        periods: &periods,
        usages: &usages,
    };
    reports_by(alloc, book, slices, effort, coded, &mut solver)
}

// A solver over these clauses of the book.
fn solver_over(alloc: Global, book: &Book, pool: Pool, vars: u32) -> Result<Solver, Memory>
    requires below { AreBelow (2 * vars) pool.clauses }
    requires codes { length book.now.codes ≤ vars }
    ensures given { IfOk result (λ s. given_of s.kernel ≡ pool.clauses) }
    ensures vars { IfOk result (λ s. s.vars ≡ vars) }
    ensures codes { IfOk result (λ s. s.codes ≡ length book.now.codes) }
{
    let kernel = Kernel::of(alloc, pool);
    let solver = Solver::new(alloc, kernel, vars, book.codes().len())?;
    Ok(solver)
}

// What the clauses of a book are coded with.
#[derive(Clone, Copy)]
struct CodedBook<'a> {
    layout: &'a Layout,
    periods: &'a [Slice],
    usages: &'a [Lit],
}

// The notes of each slice by a solver over the clauses.
fn reports_by(
    alloc: Global,
    book: &Book,
    slices: &[Slice],
    effort: Effort,
    coded: CodedBook<'_>,
    solver: &mut Solver,
) -> Result<Vec<Report>, Memory>
    requires slices { All (IsCheckable book.now) slices.now }
    requires some { 0 < effort.budget }
    requires budget { effort.budget ≤ MOST_BUDGET }
    requires over { IsOverBook book.now coded.periods.now solver.old }
    requires usages { AreUsages book.now (given_of solver.old.kernel) solver.old.vars coded.usages.now }
    ensures { IfOk result (λ reports. AllZip (SliceNotes (inquiry book.now effort)) slices.now reports.items) }
{
    let mut known = BookKnown::of(alloc, book, coded.usages, coded.layout, solver.vars())?;
    report_each(alloc, book, slices, effort, coded, solver, &mut known)
}

// Goes from one slice to the next.
fn report_each(
    alloc: Global,
    book: &Book,
    slices: &[Slice],
    effort: Effort,
    coded: CodedBook<'_>,
    solver: &mut Solver,
    known: &mut BookKnown<'_>,
) -> Result<Vec<Report>, Memory>
    requires slices { All (IsCheckable book.now) slices.now }
    requires some { 0 < effort.budget }
    requires budget { effort.budget ≤ MOST_BUDGET }
    requires over { IsOverBook book.now coded.periods.now solver.old }
    requires usages { AreUsages book.now (given_of solver.old.kernel) solver.old.vars coded.usages.now }
    ensures { IfOk result (λ reports. AllZip (SliceNotes (inquiry book.now effort)) slices.now reports.items) }
{
    let mut reports = Vec::new(alloc);
    let mut sets = Sets::new(alloc, book)?;
    // The sets are good on this day.
    let mut day = book.term().first;
    solver.vars();
    for slice in slices {
        sets.go_on(alloc, book, day, slice.first)?;
        day = slice.first;
        let task = SliceTask {
            slice: *slice,
            effort,
        };
        let on = periods_on(alloc, book, coded.periods, day)?;
        let asking = Asking {
            task,
            periods: coded.periods,
            on: &on,
            usages: coded.usages,
        };
        let notes = report_slice(alloc, book, asking, solver, &mut sets, known)?;
        reports.push(Report::of(notes))?;
    }
    Ok(reports)
}

// The notes of a slice. Where a question is left, or the slice isn't in the term, it is checked over all its own clauses.
fn report_slice(
    alloc: Global,
    book: &Book,
    asking: Asking<'_>,
    solver: &mut Solver,
    sets: &mut Sets,
    known: &mut BookKnown<'_>,
) -> Result<Vec<Note>, Memory>
    requires slice { IsCheckable book.now asking.task.slice }
    requires effort { IsEffort asking.task.effort }
    requires on { asking.on.now ≡ periods_of book.now asking.periods.now asking.task.slice }
    requires known { IsKnown book.now asking sets.old solver.old }
    ensures known { OnOk result (IsKnown book.now asking.entry sets.new solver.new) }
    ensures notes { IfOk result (λ notes.
        SliceNotes (inquiry book.now asking.entry.task.effort) asking.entry.task.slice notes.items) }
{
    book_laws(book);
    if is_in_term(book, asking.task.slice.first) {
        let told = report_core(alloc, book, asking, solver, sets, known)?;
        if let Some(notes) = told {
            return Ok(notes);
        }
    }
    let checked = check_alone(alloc, book, asking.task, sets)?;
    Ok(checked)
}

fn is_in_term(book: &Book, day: Day) -> bool
    ensures { result ≡ is_within book.now.first book.now.last day }
{
    let term = book.term();
    active(term.first, term.last, day)
}

// The notes of a slice by its own clauses. Sets that are good in it may answer questions, and it leaves some.
fn check_alone(
    alloc: Global,
    book: &Book,
    task: SliceTask,
    sets: &mut Sets,
) -> Result<Vec<Note>, Memory>
    requires slice { IsCheckable book.now task.slice }
    requires effort { IsEffort task.effort }
    requires sets { All (IsFound book.now task.slice.first) sets.old }
    ensures sets { OnOk result (All (IsFound book.now task.slice.first) sets.new) }
    ensures notes { IfOk result (λ notes. SliceNotes (inquiry book.now task.effort) task.slice notes.items) }
{
    let mut earlier = Earlier::none(alloc);
    let found = replace(sets, Sets::new(alloc, book)?);
    found.hand_on(&mut earlier.sets)?;
    let checked = check_slice(alloc, book, task, &mut earlier)?;
    let SliceCheck { notes, proof: _ } = checked;
    sets.put_earlier(book, task.slice.first, &mut earlier.sets)?;
    Ok(notes)
}

/// The notes of these, one behind the other.
pub(crate) fn joined(alloc: Global, reports: Vec<Report>) -> Result<Vec<Note>, Memory>
    ensures { IfOk result (λ all. InParts (λ report own. report ≡ own) reports.items all.items) }
{
    let mut all = Vec::new(alloc);
    for report in reports {
        let mut own = report.into_items();
        all.append(&mut own)?;
    }
    Ok(all)
}
