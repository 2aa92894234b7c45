//! Items that several workers share.
ghost use Rattle.std.specs.Prelude.{◌≡◌, ℕ, ◌+◌, ◌/◌, ◌%◌, ◌<◌, All, IfOk, length, min, slice_index_or, vec_len};
ghost use Rattle.std.specs.List.{AllZip};
ghost use Rattle.std.specs.Fork.{slice_chunk};

use crate::joined::joined;
use crate::work::Work;
use pb_base::Memory;
use std::alloc::Global;
use std::thread;
use std::thread::Threads;

/// What a work makes of each item, in their order. The items are divided into runs of neighbours, at most one for each worker; with
/// one worker all of them are one run. Where no thread can be had, the runs are worked on one after the other.
pub fn make_all<R: Threads + Sync, W: Work + Sync>(
    rt: &R,
    alloc: Global,
    work: &W,
    items: &[W::Item],
    workers: u32,
) -> Result<Vec<W::Made>, Memory>
    requires some { 0 < workers }
    requires ready { W.IsReady work.now }
    requires given { All (W.IsGiven work.now) items.now }
    ensures { IfOk result (λ made. AllZip (W.IsMade work.now) items.now made.items) }
{
    if items.is_empty() {
        return Ok(Vec::new(alloc));
    }
    let size = items.len().div_ceil(workers as usize);
    let runs = runs_made(rt, alloc, work, items, size)?;
    joined(alloc, runs)
}

// What is made of each run of so many neighbours.
fn runs_made<R: Threads + Sync, W: Work + Sync>(
    rt: &R,
    alloc: Global,
    work: &W,
    items: &[W::Item],
    size: usize,
) -> Result<Vec<Result<Vec<W::Made>, Memory>>, Memory>
    requires size { 0 < size }
    requires ready { W.IsReady work.now }
    requires given { All (W.IsGiven work.now) items.now }
    ensures count { IfOk result (λ runs.
        vec_len runs ≡ length items.now / size + min 1 (length items.now % size)) }
    ensures each { let are_made = AllZip (W.IsMade work.now) in
        IfOk result (λ runs. (n : ℕ) (d : _) → n < vec_len runs
        → IfOk (slice_index_or runs.items n d) (λ made. are_made (slice_chunk items.now size n) made.items)) }
{
    let runs = thread::map_chunks(rt, alloc, items, size, &|_, run| work.make(alloc, run))?;
    Ok(runs)
}
