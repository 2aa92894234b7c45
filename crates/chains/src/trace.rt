//! What a kernel derived, without its clauses. It takes half the room of the chains, and none of the clauses.
ghost use Rattle.std.specs.Prelude.{◌<◌, length};

use clause_pool::{Kernel, Ref, ShortPair};
use pb_base::Memory;
use std::alloc::Global;

/// The chains of the clauses that a kernel derived, in order. No answer hangs on them: one counts only where another kernel
/// takes it.
#[derive(Drop)]
pub struct Trace {
    starts: Vec<ChainStart>,
    // The pairs of all chains, one after the other.
    pairs: Vec<ShortPair>,
}

// Where a chain starts, and how many pairs it has.
#[derive(Clone, Copy)]
struct ChainStart {
    start: u32,
    count: u32,
}

/// A chain: the place of the clause that it starts with, and its pairs.
#[derive(Clone, Copy)]
pub struct Step<'a> {
    pub start: Ref,
    pub pairs: &'a [ShortPair],
}

impl Trace {
    /// No chains. It takes no memory.
    pub fn none(alloc: Global) -> Trace {
        Trace {
            starts: Vec::new(alloc),
            pairs: Vec::new(alloc),
        }
    }

    /// Becomes the chains of a kernel.
    pub fn follow(&mut self, kernel: &Kernel) -> Result<(), Memory> {
        self.starts.clear();
        self.pairs.clear();
        let given = kernel.given();
        let count = kernel.pool().len();
        self.starts.reserve_exact(count - given)?;
        self.pairs.reserve_exact(pairs_of(kernel))?;
        for at in given..count {
            self.put(kernel, at)?;
        }
        Ok(())
    }

    // Puts down the chain of the clause at this place.
    fn put(&mut self, kernel: &Kernel, at: Ref) -> Result<(), Memory>
        requires { at < length kernel.now.clauses }
    {
        let pairs = kernel.pairs_of(at);
        self.starts.push(ChainStart {
            start: short(kernel.start_of(at).unwrap_or(0)),
            count: short(pairs.len()),
        })?;
        self.pairs.extend_from_slice(pairs)?;
        Ok(())
    }

    /// The number of chains.
    pub fn len(&self) -> usize {
        self.starts.len()
    }

    /// The chain at this place, whose pairs begin at this one of all pairs.
    pub fn step_at(&self, at: usize, first: usize) -> Option<Step<'_>> {
        let chain = self.starts.get(at)?;
        let end = first.saturating_add(chain.count as usize);
        let pairs = self.pairs.get(first..end)?;
        Some(Step {
            start: chain.start as usize,
            pairs,
        })
    }
}

// How many pairs the chains of a kernel have.
fn pairs_of(kernel: &Kernel) -> usize {
    let mut count: usize = 0;
    for at in kernel.given()..kernel.pool().len() {
        count = count.saturating_add(kernel.pairs_of(at).len());
    }
    count
}

// A number that may be cut off. No kernel comes near it.
fn short(number: usize) -> u32 {
    u32::try_from(number).unwrap_or(u32::MAX)
}
