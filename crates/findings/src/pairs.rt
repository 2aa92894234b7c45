//! The pairs of variants, asked before the other questions of the positions. A refutation then rests on no answer of those,
//! so it stands in a later slice too where only they change. No answer hangs on it.
ghost use Rattle.std.specs.Prelude.{◌<◌, All, length};
ghost use Rattle.slice_hints.specs.Found.{IsFound};
ghost use Rattle.solver.specs.Solver.{Onwards};
ghost use Rattle.findings.specs.Answering.{IsTask, IsAsked, IsOver};

use crate::answer::answer;
use crate::known::Known;
use crate::outcome::Outcome;
use crate::task::{SliceTask, with_few};
use book_model::Book;
use clausify::Asked;
use pb_base::Memory;
use slice_hints::{Sets, by_second, implied, is_pair, may_be_met, pairs_at};
use solver::Solver;
use std::alloc::Global;

/// Looks for what answers the questions for pairs.
#[tactic(auto, using(solver::proofs::PoolLaws::onwards_same, solver::proofs::PoolLaws::onwards_twice))]
pub(crate) fn answer_pairs(
    alloc: Global,
    book: &Book,
    task: SliceTask,
    asked: &[Asked],
    solver: &mut Solver,
    sets: &mut Sets,
    known: &mut Known<'_>,
) -> Result<(), Memory>
    requires task { IsTask book.now task }
    requires asked { All (IsAsked book.now task.slice) asked.now }
    requires over { IsOver book.now task.slice solver.old }
    requires sets { All (IsFound book.now task.slice.first) sets.old }
    ensures onwards { Onwards solver.old solver.new }
    ensures sets { All (IsFound book.now task.slice.first) sets.new }
{
    let few = SliceTask {
        slice: task.slice,
        effort: with_few(task.effort),
    };
    for (place, one) in asked.iter().enumerate() {
        if !is_pair(one) {
            continue;
        }
        refute_pairs(alloc, solver, sets, known, asked, place)?;
        let outcome = answer(alloc, book, few, one, solver, sets, known)?;
        if let Outcome::Closed(at) = outcome {
            known.units.put(one.goal, at);
        }
    }
    Ok(())
}

// Refutes the pair at a place of the questions without a search, if it can, and those of its position before the first of them.
#[tactic(auto, using(solver::proofs::PoolLaws::onwards_twice))]
fn refute_pairs(
    alloc: Global,
    solver: &mut Solver,
    sets: &Sets,
    known: &mut Known<'_>,
    asked: &[Asked],
    place: usize,
) -> Result<(), Memory>
    requires { place < length asked.now }
    ensures { Onwards solver.old solver.new }
{
    refute_alone(alloc, solver, sets, known, pairs_at(asked, place))?;
    refute_pair(solver, sets, known, &asked[place], Way::Both)
}

// Refutes what the propagation of a variant's formula can of the pairs of a position, first of the first ones, then of the
// second ones.
#[tactic(auto, using(solver::proofs::PoolLaws::onwards_twice))]
fn refute_alone(
    alloc: Global,
    solver: &mut Solver,
    sets: &Sets,
    known: &mut Known<'_>,
    pairs: &[Asked],
) -> Result<(), Memory>
    ensures { Onwards solver.old solver.new }
{
    refute_each(solver, sets, known, pairs, Way::First)?;
    let sorted = by_second(alloc, pairs)?;
    refute_each(solver, sets, known, &sorted, Way::Second)
}

// Refutes what can be of these pairs in this way.
#[tactic(auto, using(solver::proofs::PoolLaws::onwards_same))]
fn refute_each(
    solver: &mut Solver,
    sets: &Sets,
    known: &mut Known<'_>,
    pairs: &[Asked],
    way: Way,
) -> Result<(), Memory>
    ensures { Onwards solver.old solver.new }
{
    for pair in pairs {
        refute_pair(solver, sets, known, pair, way)?;
    }
    Ok(())
}

// What is propagated to refute a pair.
#[derive(Clone, Copy)]
enum Way {
    First,
    Second,
    Both,
}

// Refutes a pair by the propagation of its variants' formulas, if it can.
#[tactic(auto, using(solver::proofs::PoolLaws::onwards_same))]
fn refute_pair(
    solver: &mut Solver,
    sets: &Sets,
    known: &mut Known<'_>,
    pair: &Asked,
    way: Way,
) -> Result<(), Memory>
    ensures { Onwards solver.old solver.new }
{
    if !known.units.is_open(pair.goal) || may_be_met(sets, pair) {
        return Ok(());
    }
    let Some(two) = implied(&known.layout.gates, pair.goal) else {
        return Ok(());
    };
    let found = match way {
        Way::First => known.refuting.refute(solver, pair.goal, &two.first)?,
        Way::Second => known.refuting.refute(solver, pair.goal, &two.second)?,
        Way::Both => known
            .refuting
            .refute_both(solver, pair.goal, &two.first, &two.second)?,
    };
    if let Some(at) = found {
        known.units.put(pair.goal, at);
    }
    Ok(())
}
