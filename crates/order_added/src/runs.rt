//! Whole runs of codes that an order doesn't need.
//!
//! As a rule an order needs few of the codes that are offered. So halves are tried first, then shorter runs, as long as some can go.
//! Only what is left is tried code by code.
ghost use Rattle.std.specs.Prelude.{◌≡◌, ◌++◌, ◌≤◌, true, IfOk, OnOk, length, take, drop};
ghost use Rattle.order_added.specs.Added.{Among};
ghost use Rattle.order_added.specs.Judging.{passes_with};

use crate::judge::Judge;
use pb_base::Memory;
use std::alloc::Global;

// Shorter runs are not tried.
const SHORTEST: usize = 3;

// After so many rounds in which no run could go, no more are tried.
const MOST_IDLE: u32 = 3;

/// Takes runs of codes out without which the order passes.
pub(crate) fn take_runs_out(
    alloc: Global,
    judge: &Judge,
    added: &mut Vec<u32>,
) -> Result<(), Memory>
    requires { passes_with judge.now added.old.items ≡ true }
    ensures passes { OnOk result (passes_with judge.now added.new.items ≡ true) }
    ensures among { OnOk result (Among added.old.items added.new.items) }
{
    let mut size = added.len() / 2;
    let mut idle = 0;
    while size >= SHORTEST && idle < MOST_IDLE {
        let before = added.len();
        round(alloc, judge, added, size)?;
        idle = idle_after(idle, before, added.len());
        size = size.min(added.len()) / 2;
    }
    Ok(())
}

// How many rounds have taken nothing out since one did, after one more that began and ended with so many codes.
fn idle_after(idle: u32, before: usize, after: usize) -> u32 {
    if before == after {
        idle.saturating_add(1)
    } else {
        0
    }
}

// The same of runs of so many codes, from the last to the first.
fn round(alloc: Global, judge: &Judge, added: &mut Vec<u32>, size: usize) -> Result<(), Memory>
    requires passes { passes_with judge.now added.old.items ≡ true }
    requires size { 1 ≤ size }
    ensures passes { OnOk result (passes_with judge.now added.new.items ≡ true) }
    ensures among { OnOk result (Among added.old.items added.new.items) }
{
    let mut end = added.len();
    while end > 0 {
        let at = end.saturating_sub(size);
        take_run_out(alloc, judge, added, at, end)?;
        end = at;
    }
    Ok(())
}

// Takes the codes from one place up to another out, unless the order doesn't pass without them.
fn take_run_out(
    alloc: Global,
    judge: &Judge,
    added: &mut Vec<u32>,
    at: usize,
    end: usize,
) -> Result<(), Memory>
    requires run { at ≤ end }
    requires there { end ≤ length added.old.items }
    requires passes { passes_with judge.now added.old.items ≡ true }
    ensures passes { OnOk result (passes_with judge.now added.new.items ≡ true) }
    ensures among { OnOk result (Among added.old.items added.new.items) }
    ensures in_range { OnOk result (at ≤ length added.new.items) }
{
    let passed = judge.passes(alloc, &added[..at], &added[end..], &added[at..end])?;
    if passed {
        *added = without_run(alloc, added, at, end)?;
    }
    Ok(())
}

// The codes but for those from one place up to another.
fn without_run(alloc: Global, added: &[u32], at: usize, end: usize) -> Result<Vec<u32>, Memory>
    requires run { at ≤ end }
    requires there { end ≤ length added.now }
    ensures { IfOk result (λ fewer. fewer.items ≡ take at added.now ++ drop end added.now) }
{
    let mut fewer = Vec::from_slice(alloc, &added[..at])?;
    fewer.extend_from_slice(&added[end..])?;
    Ok(fewer)
}
