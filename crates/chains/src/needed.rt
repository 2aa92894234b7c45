//! What some clauses of a kernel rest on, derived alone in another kernel.
ghost use Rattle.std.specs.Prelude.{◌<◌, length};
ghost use Rattle.chains.specs.Growth.{Grows};

use crate::again::rederive;
use crate::places::{PlaceMap, Places};
use crate::trace::Step;
use clause_pool::{Kernel, Pair, Ref};
use pb_base::Memory;
use std::alloc::Global;

/// By place, whether the clause there is needed.
#[derive(Drop)]
pub struct Needed {
    marks: Vec<bool>,
}

impl Needed {
    /// None of the clauses of a kernel.
    pub fn none(alloc: Global, kernel: &Kernel) -> Result<Needed, Memory> {
        Ok(Needed {
            marks: vec![in alloc; false; kernel.pool().len()]?,
        })
    }

    /// The clause at this place is needed.
    pub fn mark(&mut self, at: Ref) {
        match self.marks.get_mut(at) {
            Some(mark) => *mark = true,
            None => {}
        }
    }

    fn is_marked(&self, at: Ref) -> bool {
        self.marks.get(at) == Some(&true)
    }

    /// What a needed clause of the kernel rests on is needed too.
    pub fn close(&mut self, kernel: &Kernel) {
        for at in (kernel.given()..kernel.pool().len()).rev() {
            if self.is_marked(at) {
                self.mark_chain(kernel, at);
            }
        }
    }

    // Marks the clauses of a chain.
    fn mark_chain(&mut self, kernel: &Kernel, at: Ref)
        requires { at < length kernel.now.clauses }
    {
        if let Some(start) = kernel.start_of(at) {
            self.mark(start);
        }
        for pair in kernel.pairs_of(at) {
            self.mark(pair.pair().with);
        }
    }

    /// Whether no more than one in sixty-four of the derived clauses isn't needed.
    pub fn is_nearly_all(&self, given: usize) -> bool {
        let mut unmarked: usize = 0;
        for at in given..self.marks.len() {
            if !self.is_marked(at) {
                unmarked = unmarked.wrapping_add(1);
            }
        }
        unmarked <= self.marks.len().saturating_sub(given) / 64
    }
}

/// Derives the needed clauses of a kernel again, in order, in one over the same given clauses.
#[tactic(auto, using(crate::proofs::GrowthLaws::grows_same))]
pub fn derive_needed(
    alloc: Global,
    kernel: &mut Kernel,
    before: &Kernel,
    needed: &Needed,
) -> Result<Places, Memory>
    ensures { Grows kernel.old kernel.new }
{
    let mut places = Places::of(alloc, before.given());
    let mut pairs = Vec::new(alloc);
    for at in before.given()..before.pool().len() {
        let place = derive_one(kernel, before, needed, &places, at, &mut pairs)?;
        places.put(place)?;
    }
    Ok(places)
}

// Derives a clause again if it is needed, and gives its place.
#[tactic(auto, using(crate::proofs::GrowthLaws::grows_same))]
fn derive_one(
    kernel: &mut Kernel,
    before: &Kernel,
    needed: &Needed,
    places: &Places,
    at: Ref,
    pairs: &mut Vec<Pair>,
) -> Result<Option<Ref>, Memory>
    requires { at < length before.now.clauses }
    ensures { Grows kernel.old kernel.new }
{
    if !needed.is_marked(at) {
        return Ok(None);
    }
    let Some(start) = before.start_of(at) else {
        return Ok(None);
    };
    let step = Step {
        start,
        pairs: before.pairs_of(at),
    };
    rederive(kernel, places, step, pairs)
}
