//! The pairs of variants, asked over the clauses of a book before the other questions of the positions. A refutation then rests on no
//! answer of those. No answer hangs on it.
ghost use Rattle.solver.specs.Solver.{Onwards};

use crate::assuming::{is_core, usage_of};
use crate::book_known::BookKnown;
use crate::core_report::Asking;
use clause_pool::{Kernel, Lit};
use clausify::Question;
use pb_base::Memory;
use slice_hints::Sets;
use solver::Solver;
use std::alloc::Global;

/// A question for two variants, by its place, with the literals of their formulas.
#[derive(Clone, Copy)]
pub(crate) struct Pair {
    place: usize,
    position: u32,
    // The variants.
    first: u32,
    second: u32,
    // The literals of their formulas.
    one: Lit,
    other: Lit,
}

// Which of the two is propagated to refute a pair.
#[derive(Clone, Copy)]
enum Way {
    First,
    Second,
}

/// The pair that the question at a place is for, where both literals are known.
pub(crate) fn pair_at(questions: &[Question], usages: &[Lit], place: usize) -> Option<Pair> {
    match questions.get(place) {
        Some(
            Question::Ambiguous {
                position,
                first,
                second,
            },
        ) => Some(Pair {
            place,
            position: *position,
            first: *first,
            second: *second,
            one: usage_of(usages, *first)?,
            other: usage_of(usages, *second)?,
        }),
        _ => None,
    }
}

/// Whether a pair is the first of its position.
pub(crate) fn is_first(questions: &[Question], usages: &[Lit], pair: &Pair) -> bool {
    match pair.place.checked_sub(1) {
        Some(before) => match pair_at(questions, usages, before) {
            Some(other) => other.position != pair.position,
            None => true,
        },
        None => true,
    }
}

/// Refutes what the propagation of one formula can of the pairs of a position, of which this is the first, and gives the places of
/// those that were open before.
#[tactic(auto, using(solver::proofs::PoolLaws::onwards_twice))]
pub(crate) fn refute_alone(
    alloc: Global,
    questions: &[Question],
    asking: Asking<'_>,
    solver: &mut Solver,
    sets: &Sets,
    known: &mut BookKnown<'_>,
    pair: &Pair,
) -> Result<Vec<usize>, Memory>
    ensures { Onwards solver.old solver.new }
{
    let pairs = open_from(alloc, questions, asking, solver.kernel(), sets, known, pair)?;
    let sorted = by_second(alloc, &pairs)?;
    refute_in_turn(asking, solver, sets, known, &pairs, &sorted)?;
    places_of(alloc, &pairs)
}

// Does so first in the way in which fewer formulas are propagated.
#[tactic(auto, using(solver::proofs::PoolLaws::onwards_twice))]
fn refute_in_turn(
    asking: Asking<'_>,
    solver: &mut Solver,
    sets: &Sets,
    known: &mut BookKnown<'_>,
    pairs: &[Pair],
    sorted: &[Pair],
) -> Result<(), Memory>
    ensures { Onwards solver.old solver.new }
{
    if runs(pairs, Way::First) <= runs(sorted, Way::Second) {
        refute_each(asking, solver, sets, known, pairs, Way::First)?;
        return refute_each(asking, solver, sets, known, sorted, Way::Second);
    }
    refute_each(asking, solver, sets, known, sorted, Way::Second)?;
    refute_each(asking, solver, sets, known, pairs, Way::First)
}

// How many formulas are propagated for these pairs.
fn runs(pairs: &[Pair], way: Way) -> usize {
    let mut count: usize = 0;
    let mut last = None;
    for pair in pairs {
        let variant = match way {
            Way::First => pair.first,
            Way::Second => pair.second,
        };
        if last != Some(variant) {
            count = count.wrapping_add(1);
        }
        last = Some(variant);
    }
    count
}

// The open pairs of a position, of which this is the first.
fn open_from(
    alloc: Global,
    questions: &[Question],
    asking: Asking<'_>,
    kernel: &Kernel,
    sets: &Sets,
    known: &BookKnown<'_>,
    pair: &Pair,
) -> Result<Vec<Pair>, Memory> {
    let mut pairs = Vec::new(alloc);
    for place in pair.place..questions.len() {
        match pair_at(questions, asking.usages, place) {
            Some(other) if other.position == pair.position => {
                if !is_settled(asking, kernel, sets, known, &other) {
                    pairs.push(other)?;
                }
            }
            _ => return Ok(pairs),
        }
    }
    Ok(pairs)
}

// The same pairs, those with the same second variant side by side.
fn by_second(alloc: Global, pairs: &[Pair]) -> Result<Vec<Pair>, Memory> {
    let mut places = Vec::new(alloc);
    for (place, pair) in pairs.iter().enumerate() {
        places.push((pair.second, place))?;
    }
    places.sort_unstable();
    let mut sorted = Vec::new(alloc);
    for (_, place) in places {
        if let Some(pair) = pairs.get(place) {
            sorted.push(*pair)?;
        }
    }
    Ok(sorted)
}

fn places_of(alloc: Global, pairs: &[Pair]) -> Result<Vec<usize>, Memory> {
    let mut places = Vec::new(alloc);
    for pair in pairs {
        places.push(pair.place)?;
    }
    Ok(places)
}

// Refutes what can be of these pairs in this way.
#[tactic(auto, using(solver::proofs::PoolLaws::onwards_same))]
fn refute_each(
    asking: Asking<'_>,
    solver: &mut Solver,
    sets: &Sets,
    known: &mut BookKnown<'_>,
    pairs: &[Pair],
    way: Way,
) -> Result<(), Memory>
    ensures { Onwards solver.old solver.new }
{
    for pair in pairs {
        refute_one(asking, solver, sets, known, pair, way)?;
    }
    Ok(())
}

// Refutes a pair by the propagation of one of its variants' formulas, if it can.
#[tactic(auto, using(solver::proofs::PoolLaws::onwards_same))]
fn refute_one(
    asking: Asking<'_>,
    solver: &mut Solver,
    sets: &Sets,
    known: &mut BookKnown<'_>,
    pair: &Pair,
    way: Way,
) -> Result<(), Memory>
    ensures { Onwards solver.old solver.new }
{
    if is_settled(asking, solver.kernel(), sets, known, pair) {
        return Ok(());
    }
    let first = pair.one;
    let second = pair.other;
    let found = match way {
        Way::First => known.refuting.against(solver, asking.on, first, second)?,
        Way::Second => known.refuting.against(solver, asking.on, second, first)?,
    };
    if let Some(at) = found {
        known.cores.put_pair(
            solver.kernel(),
            pair.first,
            pair.second,
            &[first, second],
            at,
        );
    }
    Ok(())
}

/// Refutes a pair by the propagation of both formulas, if it can. Whether it needs none, or is refuted now.
#[tactic(auto, using(solver::proofs::PoolLaws::onwards_same))]
pub(crate) fn refute_both(
    asking: Asking<'_>,
    solver: &mut Solver,
    sets: &Sets,
    known: &mut BookKnown<'_>,
    pair: &Pair,
) -> Result<bool, Memory>
    ensures { Onwards solver.old solver.new }
{
    if is_settled(asking, solver.kernel(), sets, known, pair) {
        return Ok(true);
    }
    let first = pair.one;
    let second = pair.other;
    let found = known
        .refuting
        .against_both(solver, asking.on, first, second)?;
    let Some(at) = found else {
        return Ok(false);
    };
    known.cores.put_pair(
        solver.kernel(),
        pair.first,
        pair.second,
        &[first, second],
        at,
    );
    Ok(true)
}

// Whether a pair needs no refutation: a set seems to have both variants, or one is known.
fn is_settled(
    asking: Asking<'_>,
    kernel: &Kernel,
    sets: &Sets,
    known: &BookKnown<'_>,
    pair: &Pair,
) -> bool {
    if sets.using(pair.first) & sets.using(pair.second) != 0 {
        return true;
    }
    let lits = [pair.one, pair.other];
    match known.cores.of_pair(pair.first, pair.second, &lits) {
        Some(at) => is_core(kernel, asking.on, &lits, at),
        None => false,
    }
}
