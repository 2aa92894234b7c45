//! Goals that the propagation of what they imply refutes, closed without a search.
ghost use Rattle.std.specs.Prelude.{◌<◌, length, IfOk, IfSome};
ghost use Rattle.chains.specs.Growth.{ClosedAt, Grows};

use crate::shortcut::{Shortcuts, next_ahead, put_others, way_back};
use chains::{derive, refuting_unit};
use clause_pool::{Kernel, Lit, Pair, Pool, Ref};
use pb_base::Memory;
use propagate::Engine;
use std::alloc::Global;
use std::collections::BinaryHeap;
use std::mem::replace;

/// What may show that a goal is refuted: a literal that the goal implies, by the clause at this place.
#[derive(Clone, Copy)]
pub struct Implied {
    pub lit: Lit,
    pub by: Ref,
}

// Where a way back ends.
#[derive(Clone, Copy)]
enum End<'a> {
    // At shared disjunctions.
    Shared,
    // At a goal, which implies what was assumed.
    Goal(&'a [Implied]),
    // At what was assumed.
    Assumed,
}

/// A chain in the making: its pairs, and the places of the trail that it has to come to, the latest first.
#[derive(Drop)]
pub(crate) struct Walk {
    pairs: Vec<Pair>,
    ahead: BinaryHeap<usize, Global>,
    // The next literal is the one whose being false makes the goal false.
    is_last: bool,
}

impl Walk {
    /// No pairs. It takes no memory.
    pub(crate) fn new(alloc: Global) -> Walk {
        Walk {
            pairs: Vec::new(alloc),
            ahead: BinaryHeap::new(alloc),
            is_last: false,
        }
    }

    // Begins with the clause at this place.
    fn begin(
        &mut self,
        engine: &Engine,
        pool: &Pool,
        start: Ref,
        left_out: Lit,
    ) -> Result<(), Memory> {
        self.pairs.clear();
        self.ahead.clear();
        put_others(engine, pool, &mut self.ahead, start, left_out)
    }

    // Resolves a true literal away by this clause.
    fn step(&mut self, engine: &Engine, pool: &Pool, lit: Lit, with: Ref) -> Result<(), Memory> {
        self.pairs.push(Pair {
            lit: lit.not(),
            with,
        })?;
        put_others(engine, pool, &mut self.ahead, with, lit)
    }
}

/// The place of a clause that refutes a goal, derived from the reasons of its being false, if it is.
#[tactic(auto, using(chains::proofs::GrowthLaws::grows_same))]
pub(crate) fn close_false(
    kernel: &mut Kernel,
    engine: &Engine,
    shortcuts: &mut Shortcuts,
    walk: &mut Walk,
    goal: Lit,
    implied: &[Implied],
) -> Result<Option<Ref>, Memory>
    ensures grows { Grows kernel.old kernel.new }
    ensures closed { IfOk result (λ found. IfSome found (ClosedAt kernel.new.clauses goal)) }
{
    let Some(start) = reason_against(engine, goal) else {
        return Ok(None);
    };
    walk.is_last = true;
    close_from(kernel, engine, shortcuts, walk, goal, implied, start)
}

// The clause that made a literal false.
fn reason_against(engine: &Engine, lit: Lit) -> Option<Ref> {
    if lit.var() >= engine.vars() || engine.value(lit) != Some(false) {
        return None;
    }
    engine.reason(lit.var())
}

/// The same from a clause that is false over what the goal implies. What this says of disjunctions alone is derived first, since
/// it serves other goals too.
#[tactic(auto, using(chains::proofs::GrowthLaws::grows_same))]
pub(crate) fn close_conflict(
    kernel: &mut Kernel,
    engine: &Engine,
    shortcuts: &mut Shortcuts,
    walk: &mut Walk,
    goal: Lit,
    implied: &[Implied],
    at: Ref,
) -> Result<Option<Ref>, Memory>
    ensures grows { Grows kernel.old kernel.new }
    ensures closed { IfOk result (λ found. IfSome found (ClosedAt kernel.new.clauses goal)) }
{
    let start = derive_back(kernel, engine, shortcuts, walk, goal, at, End::Shared)?;
    close_from(kernel, engine, shortcuts, walk, goal, implied, start)
}

// The place of the clause that is left of one that is false but for this literal, where all is resolved away that this end leads to.
#[tactic(auto, using(chains::proofs::GrowthLaws::grows_same))]
fn derive_back(
    kernel: &mut Kernel,
    engine: &Engine,
    shortcuts: &mut Shortcuts,
    walk: &mut Walk,
    but: Lit,
    at: Ref,
    to: End<'_>,
) -> Result<Ref, Memory>
    ensures { Grows kernel.old kernel.new }
{
    walk.is_last = false;
    walk.begin(engine, kernel.pool(), at, but)?;
    go_back(kernel, engine, shortcuts, walk, to)?;
    let derived = derive(kernel, at, &walk.pairs)?;
    Ok(derived.unwrap_or(at))
}

// The place of a clause that refutes the goal, derived from one that is false but for it.
#[tactic(auto, using(chains::proofs::GrowthLaws::grows_same))]
fn close_from(
    kernel: &mut Kernel,
    engine: &Engine,
    shortcuts: &mut Shortcuts,
    walk: &mut Walk,
    goal: Lit,
    implied: &[Implied],
    start: Ref,
) -> Result<Option<Ref>, Memory>
    ensures grows { Grows kernel.old kernel.new }
    ensures closed { IfOk result (λ found. IfSome found (ClosedAt kernel.new.clauses goal)) }
{
    walk.begin(engine, kernel.pool(), start, goal)?;
    go_back(kernel, engine, shortcuts, walk, End::Goal(implied))?;
    let Some(at) = derive(kernel, start, &walk.pairs)? else {
        return Ok(None);
    };
    Ok(refuting_unit(kernel, goal, at))
}

// Puts down the pairs that lead back along the trail to this end.
#[tactic(auto, using(chains::proofs::GrowthLaws::grows_same))]
fn go_back(
    kernel: &mut Kernel,
    engine: &Engine,
    shortcuts: &mut Shortcuts,
    walk: &mut Walk,
    to: End<'_>,
) -> Result<(), Memory>
    ensures { Grows kernel.old kernel.new }
{
    let mut end = engine.trail().len();
    for _ in 0..engine.trail().len() {
        let Some(place) = next_ahead(&mut walk.ahead, end) else {
            return Ok(());
        };
        end = place;
        step_back(kernel, engine, shortcuts, walk, to, place)?;
    }
    Ok(())
}

// Puts down the pair for the literal at this place.
#[tactic(auto, using(chains::proofs::GrowthLaws::grows_same))]
fn step_back(
    kernel: &mut Kernel,
    engine: &Engine,
    shortcuts: &mut Shortcuts,
    walk: &mut Walk,
    to: End<'_>,
    place: usize,
) -> Result<(), Memory>
    ensures { Grows kernel.old kernel.new }
{
    let Some(lit) = engine.trail().get(place).copied() else {
        return Ok(());
    };
    if to.is_shared() && shortcuts.is_shared(lit.var()) {
        return Ok(());
    }
    match engine.reason_at(place) {
        Some(reason) => {
            let is_last = replace(&mut walk.is_last, false);
            let with = way_back(kernel, engine, shortcuts, place, reason, is_last)?;
            walk.step(engine, kernel.pool(), lit, with)
        }
        None => match to.by(lit) {
            Some(with) => walk.step(engine, kernel.pool(), lit, with),
            None => Ok(()),
        },
    }
}

impl End<'_> {
    fn is_shared(self) -> bool {
        matches!(self, End::Shared)
    }

    // The clause by which a goal implies what was assumed.
    fn by(self, lit: Lit) -> Option<Ref> {
        match self {
            End::Goal(implied) => by(implied, lit),
            End::Shared | End::Assumed => None,
        }
    }
}

// The clause by which the goal implies what was assumed.
fn by(implied: &[Implied], lit: Lit) -> Option<Ref> {
    for one in implied {
        if one.lit == lit {
            return Some(one.by);
        }
    }
    None
}

/// The place of a clause of the complement of a literal that is false on the trail, and of those of literals that were assumed,
/// if there is one.
#[tactic(auto, using(chains::proofs::GrowthLaws::grows_same))]
pub(crate) fn core_against(
    kernel: &mut Kernel,
    engine: &Engine,
    shortcuts: &mut Shortcuts,
    walk: &mut Walk,
    lit: Lit,
) -> Result<Option<Ref>, Memory>
    ensures { Grows kernel.old kernel.new }
{
    let Some(place) = place_against(engine, lit) else {
        return Ok(None);
    };
    let Some(reason) = engine.reason_at(place) else {
        return Ok(None);
    };
    let start = way_back(kernel, engine, shortcuts, place, reason, true)?;
    let at = derive_back(kernel, engine, shortcuts, walk, lit, start, End::Assumed)?;
    Ok(Some(at))
}

// The place of the trail at which a literal is false.
fn place_against(engine: &Engine, lit: Lit) -> Option<usize>
    ensures { IfSome result (λ place. place < length engine.now.lits) }
{
    if lit.var() >= engine.vars() || engine.value(lit) != Some(false) {
        return None;
    }
    engine.place_of(lit.var())
}

/// The place of a clause of complements of literals that were assumed, this one among them, where the clause at a place is false.
/// What that says of disjunctions alone is derived first.
#[tactic(auto, using(chains::proofs::GrowthLaws::grows_same))]
pub(crate) fn core_of_conflict(
    kernel: &mut Kernel,
    engine: &Engine,
    shortcuts: &mut Shortcuts,
    walk: &mut Walk,
    assumed: Lit,
    at: Ref,
) -> Result<Option<Ref>, Memory>
    ensures { Grows kernel.old kernel.new }
{
    let start = derive_back(kernel, engine, shortcuts, walk, assumed, at, End::Shared)?;
    let at = derive_back(
        kernel,
        engine,
        shortcuts,
        walk,
        assumed,
        start,
        End::Assumed,
    )?;
    Ok(Some(at))
}
