//! The answer to a question of a slice.
ghost use Rattle.std.specs.Prelude.{◌≡◌, All, IfOk, IfSome, length, true};
ghost use Rattle.book_model.specs.Good.{is_good};
ghost use Rattle.chains.specs.Growth.{ClosedAt};
ghost use Rattle.slice_hints.specs.Found.{IsFound};
ghost use Rattle.solver.specs.Solver.{Onwards};
ghost use Rattle.findings.specs.Answering.{SliceFacts, IsTask, IsAsked, IsOver, IsOutcome, inquiry};
ghost use Rattle.findings.specs.Outcomes.{outcome_of_set};

use crate::known::Known;
use crate::outcome::{Outcome, from_clause, from_set};
use crate::report::Note;
use crate::task::SliceTask;
use book_model::Book;
use clause_pool::Ref;
use clausify::{Asked, Question};
use pb_base::{CodeSet, Day, Memory};
use slice_hints::{Sets, found_with};
use solver::{Answer, Solver};
use std::alloc::Global;

/// What comes of a question. A set that was found before may answer it; else the solver does, and a set that it finds is
/// kept for the questions behind it.
#[tactic(auto, using(solver::proofs::PoolLaws::onwards_same))]
pub(crate) fn answer(
    alloc: Global,
    book: &Book,
    task: SliceTask,
    asked: &Asked,
    solver: &mut Solver,
    sets: &mut Sets,
    known: &mut Known<'_>,
) -> Result<Outcome, Memory>
    requires task { IsTask book.now task }
    requires asked { IsAsked book.now task.slice asked.now }
    requires over { IsOver book.now task.slice solver.old }
    requires sets { All (IsFound book.now task.slice.first) sets.old }
    ensures onwards { Onwards solver.old solver.new }
    ensures sets { All (IsFound book.now task.slice.first) sets.new }
    ensures outcome { IfOk result (IsOutcome (inquiry book.now task.effort) task.slice
        solver.new.kernel.clauses asked.now) }
{
    match sets.met(book, task.slice.first, asked.question) {
        Some(found) => return from_set(alloc, asked.question, &found.set),
        None => {}
    }
    match answer_before(book, task, asked, solver, known) {
        Some(outcome) => return Ok(outcome),
        None => {}
    }
    answer_by_search(alloc, book, task, asked, solver, sets, known)
}

// What comes of a question by a search.
#[tactic(auto, using(solver::proofs::PoolLaws::onwards_after))]
fn answer_by_search(
    alloc: Global,
    book: &Book,
    task: SliceTask,
    asked: &Asked,
    solver: &mut Solver,
    sets: &mut Sets,
    known: &mut Known<'_>,
) -> Result<Outcome, Memory>
    requires task { IsTask book.now task }
    requires asked { IsAsked book.now task.slice asked.now }
    requires over { IsOver book.now task.slice solver.old }
    requires sets { All (IsFound book.now task.slice.first) sets.old }
    ensures onwards { Onwards solver.old solver.new }
    ensures sets { All (IsFound book.now task.slice.first) sets.new }
    ensures outcome { IfOk result (IsOutcome (inquiry book.now task.effort) task.slice
        solver.new.kernel.clauses asked.now) }
{
    known.point(solver, book, task.slice.first, sets, asked.question);
    let searched = solver.solve(&[asked.goal], task.effort.budget)?;
    match searched {
        Answer::Set(set) => {
            return keep(alloc, book, task.slice.first, asked.question, set, sets);
        }
        Answer::Closed(at) => {
            return Ok(closed_outcome(book, task, asked, solver, at));
        }
        Answer::Spent(learnt) => {
            return Ok(Outcome::Noted(Note::Undecided {
                question: asked.question,
                learnt,
            }));
        }
    }
}

/// What comes of a question whose goal a set meets, which is kept.
pub(crate) fn keep(
    alloc: Global,
    book: &Book,
    day: Day,
    question: Question,
    set: CodeSet,
    sets: &mut Sets,
) -> Result<Outcome, Memory>
    requires counted { length set ≡ length book.now.codes }
    requires good { is_good book.now day set ≡ true }
    requires sets { All (IsFound book.now day) sets.old }
    ensures sets { All (IsFound book.now day) sets.new }
    ensures outcome { IfOk result (λ outcome. outcome ≡ outcome_of_set question set) }
{
    let found = found_with(alloc, book, set)?;
    let outcome = from_set(alloc, question, &found.set)?;
    sets.put(found)?;
    Ok(outcome)
}

// What comes of a question that was refuted before, if it was.
fn answer_before(
    book: &Book,
    task: SliceTask,
    asked: &Asked,
    solver: &Solver,
    known: &Known<'_>,
) -> Option<Outcome>
    requires facts { SliceFacts book.now task.slice }
    requires asked { IsAsked book.now task.slice asked.now }
    requires over { IsOver book.now task.slice solver.now }
    ensures { IfSome result (IsOutcome (inquiry book.now task.effort) task.slice
        solver.now.kernel.clauses asked.now) }
{
    let at = known.units.refuting(solver.kernel(), asked.goal)?;
    Some(closed_outcome(book, task, asked, solver, at))
}

// What comes of a question whose goal a clause of the solver's kernel refutes.
fn closed_outcome(book: &Book, task: SliceTask, asked: &Asked, solver: &Solver, at: Ref) -> Outcome
    requires facts { SliceFacts book.now task.slice }
    requires asked { IsAsked book.now task.slice asked.now }
    requires over { IsOver book.now task.slice solver.now }
    requires closed { ClosedAt solver.now.kernel.clauses asked.now.goal at }
    ensures { IsOutcome (inquiry book.now task.effort) task.slice solver.now.kernel.clauses asked.now result }
{
    solver.kernel().pool();
    from_clause(asked.question, at)
}
