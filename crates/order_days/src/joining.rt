//! Slices, joined to runs.
ghost use Rattle.std.specs.Prelude.{◌≡◌, ◌∷◌, ◌++◌, List, None, All, IfOk, OnOk};
ghost use Rattle.parts_usage.specs.Fault.{order_fault};
ghost use Rattle.order_days.specs.Days.{FitsBook};
ghost use Rattle.order_days.specs.Joined.{run_on, runs_on, joined, joined_from};
ghost use Rattle.order_days.specs.declared.run.Run.{Run};

use crate::run::Run;
use crate::same::tells_same;
use book_model::{Book, Slice};
use parts_usage::outcome;
use pb_base::{CodeName, Fail, Memory};
use std::alloc::Global;
use std::mem::replace;

/// The runs that the slices make. On the first day of each the order has no fault.
pub(crate) fn joined_runs(
    alloc: Global,
    book: &Book,
    names: &[CodeName],
    slices: &[Slice],
) -> Result<Vec<Run>, Memory>
    requires { All (λ s. order_fault book.now s.first names.now ≡ None) slices.now }
    ensures { IfOk result (λ runs. runs.items ≡ joined book.now (runs_on book.now names.now slices.now)) }
{
    match slices {
        [] => Ok(Vec::new(alloc)),
        [first, rest @ ..] => joined_from(alloc, book, names, first, rest),
    }
}

fn joined_from(
    alloc: Global,
    book: &Book,
    names: &[CodeName],
    first: &Slice,
    rest: &[Slice],
) -> Result<Vec<Run>, Memory>
    requires first { order_fault book.now first.now.first names.now ≡ None }
    requires rest { All (λ s. order_fault book.now s.first names.now ≡ None) rest.now }
    ensures { let run = run_on book.now names.now first.now in
        IfOk result (λ runs. runs.items ≡ joined_from book.now run (runs_on book.now names.now rest.now)) }
{
    let mut runs = Vec::new(alloc);
    let mut run = run_on(alloc, book, names, first)?;
    for slice in rest {
        let next = run_on(alloc, book, names, slice)?;
        put_next(&mut runs, &mut run, book, next)?;
    }
    runs.push(run)?;
    Ok(runs)
}

// The run goes on over the next one, or is done.
fn put_next(runs: &mut Vec<Run>, run: &mut Run, book: &Book, next: Run) -> Result<(), Memory>
    requires fits { FitsBook book.now run.old }
    requires next_fits { FitsBook book.now next }
    ensures joined { OnOk result ((more : List Run)
        → runs.new.items ++ joined_from book.now run.new more ≡ runs.old.items ++ joined_from book.now run.old (next ∷ more)) }
    ensures fits { OnOk result (FitsBook book.now run.new) }
{
    if tells_same(book, run, &next) {
        run.last = next.last;
    } else {
        let done = replace(run, next);
        runs.push(done)?;
    }
    Ok(())
}

// What the order comes to on the first day of a slice.
fn run_on(alloc: Global, book: &Book, names: &[CodeName], slice: &Slice) -> Result<Run, Memory>
    requires { order_fault book.now slice.now.first names.now ≡ None }
    ensures run { IfOk result (λ run. run ≡ run_on book.now names.now slice.now) }
    ensures fits { IfOk result (FitsBook book.now) }
{
    let _codes = book.codes();
    match outcome(alloc, book, slice.first, names) {
        Ok(outcome) => Ok(Run {
            first: slice.first,
            last: slice.last,
            outcome,
        }),
        Err(Fail::Refused(_)) => unreachable!(),
        Err(Fail::Memory) => Err(Memory),
    }
}
