//! What no report over all days of two books tells.
ghost use Rattle.std.specs.Prelude.{◌<◌, ◌≤◌, IfOk};
ghost use Rattle.std.specs.List.{AllByRecursion};
ghost use Rattle.pb_base.specs.declared.limits.TheConstants.{MOST_BUDGET};
ghost use Rattle.comparison_guards.specs.Runs.{HasDays, WinsOwnCars};

use book_changes::{RunNotes, changes};
use book_model::LimitFault;
use pb_base::Fail;
use release::Released;
use std::alloc::Global;
use std::thread::Threads;

/// A run is told of that begins behind its end: on none of its days do both books hold.
pub fn no_run_has_days_of_one_book_alone<R: Threads + Sync>(
    rt: &R,
    alloc: Global,
    first: &Released,
    second: &Released,
    budget: u32,
    workers: u32,
) -> Result<Vec<RunNotes>, Fail<LimitFault>>
    requires some { 0 < budget }
    requires most { budget ≤ MOST_BUDGET }
    requires workers { 0 < workers }
    ensures { IfOk result (λ notes. AllByRecursion HasDays notes.items) }
{
    changes(rt, alloc, first, second, budget, workers)
}

/// A car is told as a new one that the second book refuses: one of those that are lost, say.
pub fn no_won_car_is_none_of_the_second_book<R: Threads + Sync>(
    rt: &R,
    alloc: Global,
    first: &Released,
    second: &Released,
    budget: u32,
    workers: u32,
) -> Result<Vec<RunNotes>, Fail<LimitFault>>
    requires some { 0 < budget }
    requires most { budget ≤ MOST_BUDGET }
    requires workers { 0 < workers }
    ensures { IfOk result (λ notes. AllByRecursion (WinsOwnCars second.now.book) notes.items) }
{
    changes(rt, alloc, first, second, budget, workers)
}
