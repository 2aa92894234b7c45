//! The runs of days on which neither of two books changes.
ghost use Rattle.std.specs.Prelude.{◌≡◌, ◌++◌, IfOk, OnOk};
ghost use Rattle.std.specs.List.{flat_map};
ghost use Rattle.book_changes.specs.Days.{earlier, joint_runs, later, shared};

use book_model::Slice;
use pb_base::{Day, Memory};
use std::alloc::Global;

/// The days that are in a slice of one book and in a slice of the other, in order.
pub(crate) fn joint_runs(
    alloc: Global,
    first: &[Slice],
    second: &[Slice],
) -> Result<Vec<Slice>, Memory>
    ensures { IfOk result (λ runs. runs.items ≡ joint_runs first.now second.now) }
{
    let mut runs = Vec::new(alloc);
    for own in first {
        put_shared(&mut runs, *own, second)?;
    }
    Ok(runs)
}

// The days that a slice shares with each of these, behind the others.
fn put_shared(runs: &mut Vec<Slice>, own: Slice, slices: &[Slice]) -> Result<(), Memory>
    ensures { OnOk result (runs.new.items ≡ runs.old.items ++ flat_map (shared own) slices.now) }
{
    for other in slices {
        put(runs, own, *other)?;
    }
    Ok(())
}

fn put(runs: &mut Vec<Slice>, own: Slice, other: Slice) -> Result<(), Memory>
    ensures { OnOk result (runs.new.items ≡ runs.old.items ++ shared own other) }
{
    let first = later(own.first, other.first);
    let last = earlier(own.last, other.last);
    if first <= last {
        runs.push(Slice { first, last })?;
    }
    Ok(())
}

fn later(a: Day, b: Day) -> Day
    ensures { result ≡ later a b }
{
    if a <= b { b } else { a }
}

fn earlier(a: Day, b: Day) -> Day
    ensures { result ≡ earlier a b }
{
    if a <= b { a } else { b }
}
