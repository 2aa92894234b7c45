//! What workers do.
ghost use Rattle.std.specs.Prelude.{All, IfOk};
ghost use Rattle.std.specs.List.{AllZip};

use pb_base::Memory;
use std::alloc::Global;

/// Something is made of each of some items. What was learnt at one item may serve at those behind it, so neighbours are handed to
/// one call.
pub trait Work {
    type Item: Sync;

    type Made: Send + Drop;

    /// What the work stands on is as it has to be.
    ghost IsReady: { Self → Type 0 };

    /// The item may be handed to the work.
    ghost IsGiven: { Self → Self.Item → Type 0 };

    /// This may be made of the item.
    ghost IsMade: { Self → Self.Item → Self.Made → Type 0 };

    /// What is made of each of these, in their order.
    fn make(&self, alloc: Global, items: &[Self::Item]) -> Result<Vec<Self::Made>, Memory>
        requires ready { IsReady self.now }
        requires given { All (IsGiven self.now) items.now }
        ensures { IfOk result (λ made. AllZip (IsMade self.now) items.now made.items) };
}
