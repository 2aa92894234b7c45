//! Chains, derived again where their clauses stand elsewhere.
ghost use Rattle.chains.specs.Growth.{Grows};

use crate::derived::derive;
use crate::places::PlaceMap;
use crate::trace::{Step, Trace};
use clause_pool::{Kernel, Pair, Ref, ShortPair};
use pb_base::Memory;
use std::alloc::Global;

/// Derives the clause of a chain again, and gives its place, if what it rests on is there.
#[tactic(auto, using(crate::proofs::GrowthLaws::grows_same))]
pub fn rederive<M: PlaceMap>(
    kernel: &mut Kernel,
    map: &M,
    step: Step<'_>,
    scratch: &mut Vec<Pair>,
) -> Result<Option<Ref>, Memory>
    ensures { Grows kernel.old kernel.new }
{
    let Some(start) = map.place(step.start) else {
        return Ok(None);
    };
    if !move_pairs(map, step.pairs, scratch)? {
        return Ok(None);
    }
    derive(kernel, start, scratch)
}

// Leaves pairs as they are now, and says whether all of them are there.
fn move_pairs<M: PlaceMap>(
    map: &M,
    before: &[ShortPair],
    pairs: &mut Vec<Pair>,
) -> Result<bool, Memory> {
    pairs.clear();
    for pair in before {
        let Some(moved) = moved_pair(map, pair.pair()) else {
            return Ok(false);
        };
        pairs.push(moved)?;
    }
    Ok(true)
}

fn moved_pair<M: PlaceMap>(map: &M, pair: Pair) -> Option<Pair> {
    let lit = map.literal(pair.lit)?;
    let with = map.place(pair.with)?;
    Some(Pair { lit, with })
}

/// Derives again what another kernel derived, as far as what it rests on is there.
#[tactic(auto, using(crate::proofs::GrowthLaws::grows_same))]
pub fn derive_again<M: PlaceMap>(
    alloc: Global,
    kernel: &mut Kernel,
    before: &Trace,
    map: &mut M,
) -> Result<(), Memory>
    ensures { Grows kernel.old kernel.new }
{
    let mut pairs = Vec::new(alloc);
    let mut first: usize = 0;
    for at in 0..before.len() {
        let Some(step) = before.step_at(at, first) else {
            return Ok(());
        };
        first = first.saturating_add(step.pairs.len());
        let place = rederive(kernel, map, step, &mut pairs)?;
        map.put(place)?;
    }
    Ok(())
}
