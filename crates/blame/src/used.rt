//! Which given clauses a derived clause rests on. That is a hint: nothing is claimed of it.
ghost use Rattle.std.specs.Prelude.{◌<◌, length};

use clause_pool::{Kernel, Lit, Ref};
use pb_base::Memory;
use std::alloc::Global;

/// For each run of given clauses, of which these are the first ones, whether the clause at a place rests on one of them. A run ends
/// where the next begins, and the last where the given ones do.
pub(crate) fn used_marks(
    alloc: Global,
    kernel: &Kernel,
    at: Ref,
    starts: &[Ref],
) -> Result<Vec<bool>, Memory> {
    let used = used_clauses(alloc, kernel, at)?;
    let mut marks = Vec::new(alloc);
    for place in 0..starts.len() {
        let end = match starts.get(place + 1) {
            Some(next) => *next,
            None => kernel.given(),
        };
        marks.push(is_used_between(&used, starts[place], end))?;
    }
    Ok(marks)
}

/// The same, and behind it for each code whether the clause says that it is not there.
pub(crate) fn marks_by(
    alloc: Global,
    kernel: &Kernel,
    at: Ref,
    starts: &[Ref],
    codes: &[u32],
) -> Result<Vec<bool>, Memory> {
    let mut marks = used_marks(alloc, kernel, at, starts)?;
    for code in codes {
        marks.push(is_denied(kernel, at, *code))?;
    }
    Ok(marks)
}

/// How often each of so many variables, of which this is the first, stands in the given clauses of the chains on which the clause at a
/// place rests.
pub(crate) fn use_counts(
    alloc: Global,
    kernel: &Kernel,
    at: Ref,
    first: u32,
    count: usize,
) -> Result<Vec<u32>, Memory> {
    let used = used_clauses(alloc, kernel, at)?;
    let mut counts = vec![in alloc; 0; count]?;
    for place in kernel.given()..kernel.pool().len() {
        if used.get(place) == Some(&true) {
            count_chain(&mut counts, kernel, place, first);
        }
    }
    Ok(counts)
}

fn count_chain(counts: &mut [u32], kernel: &Kernel, at: Ref, first: u32)
    requires { at < length kernel.now.clauses }
{
    if let Some(start) = kernel.start_of(at) {
        count_given(counts, kernel, start, first);
    }
    for pair in kernel.pairs_of(at) {
        count_given(counts, kernel, pair.pair().with, first);
    }
}

fn count_given(counts: &mut [u32], kernel: &Kernel, at: Ref, first: u32) {
    let pool = kernel.pool();
    if at >= kernel.given() || at >= pool.len() {
        return;
    }
    for lit in pool.lits(at) {
        if let Some(count) = counts.get_mut(lit.var().wrapping_sub(first) as usize) {
            *count = count.saturating_add(1);
        }
    }
}

fn is_denied(kernel: &Kernel, at: Ref, code: u32) -> bool {
    let pool = kernel.pool();
    let denied = Lit::new(code, false);
    at < pool.len() && pool.lits(at).iter().any(|lit| *lit == denied)
}

// For each clause of the kernel, whether that at a place rests on it.
fn used_clauses(alloc: Global, kernel: &Kernel, at: Ref) -> Result<Vec<bool>, Memory> {
    let mut used = vec![in alloc; false; kernel.pool().len()]?;
    mark(&mut used, at);
    for place in (kernel.given()..kernel.pool().len()).rev() {
        if used.get(place) == Some(&true) {
            mark_chain(&mut used, kernel, place);
        }
    }
    Ok(used)
}

fn mark(used: &mut [bool], at: Ref) {
    match used.get_mut(at) {
        Some(mark) => *mark = true,
        None => {}
    }
}

fn mark_chain(used: &mut [bool], kernel: &Kernel, at: Ref)
    requires { at < length kernel.now.clauses }
{
    if let Some(start) = kernel.start_of(at) {
        mark(used, start);
    }
    for pair in kernel.pairs_of(at) {
        mark(used, pair.pair().with);
    }
}

fn is_used_between(used: &[bool], first: Ref, end: Ref) -> bool {
    for at in first..end {
        if used.get(at) == Some(&true) {
            return true;
        }
    }
    false
}
