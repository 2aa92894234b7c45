//! What can't come of work that several workers share.
ghost use Rattle.std.specs.Prelude.{◌≡◌, ◌<◌, ℕ, All, IfOk, Some, slice_get};

use pb_base::Memory;
use shared_work::{Work, make_all};
use std::alloc::Global;
use std::thread::Threads;

/// What is made of an item stands at the item's place, however the workers end. A run would tell of one slice what was found on
/// another.
#[tactic(auto, using(crate::proofs::SharedLaws::at_its_place))]
pub fn what_is_made_stands_at_its_place<R: Threads + Sync, W: Work + Sync>(
    rt: &R,
    alloc: Global,
    work: &W,
    items: &[W::Item],
    workers: u32,
) -> Result<Vec<W::Made>, Memory>
    requires some { 0 < workers }
    requires ready { W.IsReady work.now }
    requires given { All (W.IsGiven work.now) items.now }
    ensures { IfOk result (λ made. (place : ℕ) (item : W.Item) (own : W.Made) → slice_get items.now place ≡ Some item
        → slice_get made.items place ≡ Some own → W.IsMade work.now item own) }
{
    make_all(rt, alloc, work, items, workers)
}
