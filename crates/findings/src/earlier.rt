//! What a slice hands on to the next one. No answer hangs on it.
ghost use Rattle.std.specs.Prelude.{◌≡◌, []};

use slice_chains::EarlierChains;
use slice_hints::Found;
use std::alloc::Global;

/// What the latest slice hands on.
#[derive(Drop)]
pub(crate) struct Earlier {
    /// Sets that are good in it, or in the latest one that has any. The first of them stands last.
    pub(crate) sets: Vec<Found>,
    /// What its kernel derived.
    pub(crate) chains: EarlierChains,
}

impl Earlier {
    /// Nothing. It takes no memory.
    pub(crate) fn none(alloc: Global) -> Earlier
        ensures { result.sets.items ≡ [] }
    {
        Earlier {
            sets: Vec::new(alloc),
            chains: EarlierChains::none(alloc),
        }
    }
}
