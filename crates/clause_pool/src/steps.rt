//! The chains of the clauses that were derived.
ghost use Rattle.std.specs.Prelude.{◌≡◌, ◌<◌, [], ◌∷◌, ◌++◌, length, slice_index, slice_index_or, OnOk, OnErr};

use crate::chain::{Pair, ShortPair};
use crate::pool::Ref;
use crate::region::{append, list_at, make_room};
use pb_base::Memory;
use std::alloc::Global;
use std::marker::Model;

/// For each derived clause, in order, where its chain starts and the pairs of it.
#[derive(Drop)]
pub(crate) struct StepLog {
    starts: Vec<Ref>,
    pairs: Vec<ShortPair>,
    pair_starts: Vec<usize>,
    // Where the pairs of one chain are made short.
    scratch: Vec<ShortPair>,
}

impl Model for StepLog {
    ghost use Rattle.std.specs.Prelude.{◌≡◌, length};
    ghost use Rattle.clause_pool.specs.Region.{region, IsRegion};
    ghost use Rattle.clause_pool.specs.Steps.{Steps};

    ghost Value = { Steps };

    ghost view = { λ s.
        record { starts = s.starts.items; pairs = region s.pair_starts.items s.pairs.items } };

    ghost invariant = { λ s. IsRegion s.pair_starts.items (length s.pairs.items)
        × (length s.pair_starts.items ≡ length s.starts.items) };
}

impl StepLog {
    pub(crate) fn new(alloc: Global) -> StepLog
        ensures starts { result.starts ≡ [] }
        ensures pairs { result.pairs ≡ [] }
    {
        StepLog {
            starts: Vec::new(alloc),
            pairs: Vec::new(alloc),
            pair_starts: Vec::new(alloc),
            scratch: Vec::new(alloc),
        }
    }

    /// Where the chain of the n-th derived clause starts.
    pub(crate) fn start(&self, n: usize) -> Ref
        requires { n < length self.now.starts }
        ensures { result ≡ slice_index self.now.starts n }
    {
        self.starts[n]
    }

    /// The pairs of the n-th derived clause.
    pub(crate) fn pairs(&self, n: usize) -> &[ShortPair]
        requires { n < length self.now.starts }
        ensures { result.now ≡ slice_index_or self.now.pairs n [] }
    {
        list_at(&self.pairs, &self.pair_starts, n)
    }

    /// Notes the chain of one more derived clause.
    pub(crate) fn push(&mut self, start: Ref, pairs: &[Pair]) -> Result<(), Memory>
        ensures starts { OnOk result (self.new.starts ≡ self.old.starts ++ start ∷ []) }
        ensures pairs { OnOk result (self.new.pairs ≡ self.old.pairs ++ pairs.now ∷ []) }
        ensures err { OnErr result (self.new ≡ self.old) }
    {
        shorten(&mut self.scratch, pairs)?;
        make_room(&mut self.starts, 1)?;
        make_room(&mut self.pair_starts, 1)?;
        make_room(&mut self.pairs, pairs.len())?;
        self.starts.push(start).unwrap();
        append(&mut self.pairs, &mut self.pair_starts, &self.scratch);
        Ok(())
    }
}

// Makes these pairs short.
fn shorten(short: &mut Vec<ShortPair>, pairs: &[Pair]) -> Result<(), Memory>
    ensures { OnOk result (short.new.items ≡ pairs.now) }
{
    short.clear();
    short.reserve(pairs.len())?;
    for pair in pairs {
        short.push_reserved(ShortPair::of(*pair)?);
    }
    Ok(())
}
