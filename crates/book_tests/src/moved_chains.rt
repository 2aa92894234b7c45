//! What a slice derived is derived again in the next one, where what it rests on stands elsewhere.
ghost use Rattle.std.specs.Prelude.{◌*◌, ◌≤◌};
ghost use Rattle.clause_pool.specs.Clause.{AreBelow};

use crate::coded::book_of;
use book_model::{Book, Slice, slices};
use clause_pool::{Kernel, Lit, Pool};
use clausify::{Asked, Coded, LaidSlice, Question, laid_slice};
use pb_base::Memory;
use slice_chains::EarlierChains;
use solver::Solver;
use std::alloc::Global;
use std::test::Fail;

// The variants at the places 1 and 2 exclude each other, and so do those at 1 and 3. From day 50 on there is a rule more before
// the other one, and neither the variant at 0 nor that at 2.
const TWO_SLICES: &[u8] = b"book,T,1,100\n\
code,A,\n\
code,B,\n\
code,C,\n\
code,D,\n\
construct,C1,*,C/D,50,\n\
construct,C2,*,A/B,,\n\
position,P1,,mandatory,,\n\
variant,V0,P1,W,1,D+A,,49\n\
variant,V1,P1,X,1,A+C,,\n\
variant,V2,P1,Y,1,B+-C,,49\n\
variant,V3,P1,Z,1,D+-C,,";

// The goal of two variants, if it is asked for.
fn goal_of(questions: &[Asked], one: u32, other: u32) -> Option<Lit> {
    for asked in questions {
        if let Question::Ambiguous {
            position: _,
            first,
            second,
        } = asked.question
            && first == one
            && second == other
        {
            return Some(asked.goal);
        }
    }
    None
}

// A kernel over these clauses that has refuted a goal.
fn refuted(alloc: Global, clauses: Pool, vars: u32, codes: u32, goal: Lit) -> Result<Kernel, Memory>
    requires below { AreBelow (2 * vars) clauses.clauses }
    requires codes { codes ≤ vars }
{
    let mut solver = Solver::new(alloc, Kernel::of(alloc, clauses), vars, codes)?;
    if goal.var() < vars {
        solver.solve(&[goal], 100)?;
    }
    Ok(solver.into_kernel())
}

// How many clauses a kernel derived.
fn derived(kernel: &Kernel) -> usize {
    kernel.pool().len().saturating_sub(kernel.given())
}

// Whether the last clause of a kernel refutes a goal.
fn ends_with(kernel: &Kernel, goal: Lit) -> bool {
    let pool = kernel.pool();
    if pool.len() == 0 {
        return false;
    }
    pool.lits(pool.len() - 1) == [goal.not()].as_slice()
}

// What the first slice of a book hands on once it has refuted two of its variants, and how many clauses it derived.
fn refuted_first(
    alloc: Global,
    book: &Book,
    slice: &Slice,
    one: u32,
    other: u32,
) -> Result<(EarlierChains, usize), Memory> {
    let laid = laid_slice(alloc, book, slice)?;
    let LaidSlice { coded, layout } = laid;
    let Coded {
        pool,
        vars,
        questions,
    } = coded;
    let mut chains = EarlierChains::none(alloc);
    chains.go_on(layout);
    let Some(goal) = goal_of(&questions, one, other) else {
        return Ok((chains, 0));
    };
    let kernel = refuted(alloc, pool, vars, book.codes().len(), goal)?;
    chains.follow(book, slice, &kernel)?;
    Ok((chains, derived(&kernel)))
}

// How many clauses of the first slice are derived again in the second one, and whether the last of them refutes the two variants.
fn refuted_again(
    alloc: Global,
    book: &Book,
    slice: &Slice,
    chains: &mut EarlierChains,
    one: u32,
    other: u32,
) -> Result<(usize, bool), Memory> {
    let laid = laid_slice(alloc, book, slice)?;
    let LaidSlice { coded, layout } = laid;
    let Coded {
        pool,
        vars: _,
        questions,
    } = coded;
    chains.go_on(layout);
    let mut kernel = Kernel::of(alloc, pool);
    chains.derive_in(alloc, book, slice, &mut kernel)?;
    let Some(goal) = goal_of(&questions, one, other) else {
        return Ok((derived(&kernel), false));
    };
    Ok((derived(&kernel), ends_with(&kernel, goal)))
}

// How many clauses refute two variants in the first slice, how many of them are derived again in the second one, and whether
// these refute the two there.
fn handed_on(
    alloc: Global,
    book: &Book,
    one: u32,
    other: u32,
) -> Result<Option<(usize, usize, bool)>, Memory> {
    let Ok(all) = slices(alloc, book) else {
        return Ok(None);
    };
    let [before, now] = all.as_slice() else {
        return Ok(None);
    };
    let (mut chains, first) = refuted_first(alloc, book, before, one, other)?;
    let (again, is_refuted) = refuted_again(alloc, book, now, &mut chains, one, other)?;
    Ok(Some((first, again, is_refuted)))
}

#[test]
fn what_refutes_two_variants_moves_with_them(rt: HostRuntime) -> Result<(), Fail> {
    let book = book_of(rt.alloc(), TWO_SLICES)?;
    let stays = handed_on(rt.alloc(), &book, 1, 3)?;
    assert!(rt; stays == Some((1, 1, true)));
    let goes = handed_on(rt.alloc(), &book, 1, 2)?;
    assert!(rt; goes == Some((1, 0, false)));
    Ok(())
}
