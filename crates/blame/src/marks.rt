//! Which entries are kept, which are needed, and of which that is left open.
ghost use Rattle.std.specs.Prelude.{IfOk};
ghost use Rattle.blame.specs.Guarding.{IsUntried};

use pb_base::Memory;
use std::alloc::Global;

/// Marks of entries, by their places.
#[derive(Drop)]
pub(crate) struct Marks {
    pub(crate) kept: Vec<bool>,
    pub(crate) needed: Vec<bool>,
    /// A search without the entry was left.
    pub(crate) left: Vec<bool>,
}

/// All of so many are kept, and none was tried.
pub(crate) fn untried(alloc: Global, count: usize) -> Result<Marks, Memory>
    ensures { IfOk result (IsUntried count) }
{
    Ok(Marks {
        kept: vec![in alloc; true; count]?,
        needed: vec![in alloc; false; count]?,
        left: vec![in alloc; false; count]?,
    })
}
