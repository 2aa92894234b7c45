//! Short ways back from a literal of the trail. Each is a derived clause by which the literal follows from one that it came from
//! alone, if that is a code or a shared disjunction. Chains that go the same way later are short by it, and so are those of later
//! searches. No contract speaks of it: a chain counts only where the kernel takes it.
ghost use Rattle.std.specs.Prelude.{◌<◌, length, IfOk, IfSome};
ghost use Rattle.chains.specs.Growth.{Grows};

use crate::share::{NO_VAR, Sharing};
use chains::derive;
use clause_pool::{Kernel, Lit, Pair, Pool, Ref};
use pb_base::Memory;
use propagate::Engine;
use std::alloc::Global;
use std::collections::BinaryHeap;

/// By variable, the derived clauses that stand for the reasons of the trail.
#[derive(Drop)]
pub(crate) struct Shortcuts {
    by_var: Vec<Option<u32>>,
    // The variables above level 0 that have one.
    touched: Vec<u32>,
    // Variables below this one are codes.
    codes: u32,
    sharing: Option<Sharing>,
    pairs: Vec<Pair>,
    ahead: BinaryHeap<usize, Global>,
}

impl Shortcuts {
    /// None yet. It takes no memory.
    pub(crate) fn new(alloc: Global, codes: u32) -> Shortcuts {
        Shortcuts {
            by_var: Vec::new(alloc),
            touched: Vec::new(alloc),
            codes,
            sharing: None,
            pairs: Vec::new(alloc),
            ahead: BinaryHeap::new(alloc),
        }
    }

    /// Says which variables are disjunctions that others imply.
    pub(crate) fn lead_to(&mut self, sharing: Sharing) {
        self.sharing = Some(sharing);
    }

    /// Forgets what rests on an assumption.
    pub(crate) fn forget(&mut self) {
        for var in &self.touched {
            if let Some(at) = self.by_var.get_mut(*var as usize) {
                *at = None;
            }
        }
        self.touched.clear();
    }

    // The clause that stands for the reason of a variable.
    fn known(&self, var: u32) -> Option<Ref> {
        match self.by_var.get(var as usize) {
            Some(Some(at)) => Some(*at as usize),
            _ => None,
        }
    }

    /// Whether a variable is a disjunction that others imply.
    pub(crate) fn is_shared(&self, var: u32) -> bool {
        match &self.sharing {
            Some(sharing) => sharing.is_shared.get(var as usize) == Some(&true),
            None => false,
        }
    }

    /// The first disjunction of the same literals as one, if that is one.
    pub(crate) fn first_of(&self, var: u32) -> Option<u32> {
        match &self.sharing {
            Some(sharing) => match sharing.firsts.get(var as usize) {
                Some(first) if *first != NO_VAR => Some(*first),
                _ => None,
            },
            None => None,
        }
    }

    // Whether ways lead back to a variable.
    fn is_key(&self, var: u32) -> bool {
        var < self.codes || self.is_shared(var)
    }

    // A clause stands for the reason of the literal at this place.
    fn put(&mut self, engine: &Engine, place: usize, at: Ref) -> Result<(), Memory>
        requires { place < length engine.now.lits }
    {
        let var = engine.trail()[place].var();
        let vars = engine.vars() as usize;
        if self.by_var.len() < vars {
            self.by_var.resize(vars, None)?;
        }
        if place >= engine.end_of(0) {
            self.touched.push(var)?;
        }
        if let Some(entry) = self.by_var.get_mut(var as usize) {
            *entry = u32::try_from(at).ok();
        }
        Ok(())
    }
}

/// The clause by which the literal at a place of the trail is resolved away: its reason, or one derived from it that leads
/// further back. The last literal of a way is the one whose being false closes a question.
#[tactic(auto, using(chains::proofs::GrowthLaws::grows_same))]
pub(crate) fn way_back(
    kernel: &mut Kernel,
    engine: &Engine,
    shortcuts: &mut Shortcuts,
    place: usize,
    reason: Ref,
    is_last: bool,
) -> Result<Ref, Memory>
    requires { place < length engine.now.lits }
    ensures { Grows kernel.old kernel.new }
{
    let var = engine.trail()[place].var();
    if let Some(known) = shortcuts.known(var) {
        return Ok(known);
    }
    if !is_last && !shortcuts.is_key(var) && place >= engine.end_of(0) {
        return Ok(reason);
    }
    let origin = gather_way(kernel.pool(), engine, shortcuts, place, reason)?;
    if is_last && is_assumed(engine, origin) {
        return Ok(reason);
    }
    let at = derive(kernel, reason, &shortcuts.pairs)?.unwrap_or(reason);
    shortcuts.put(engine, place, at)?;
    Ok(at)
}

// Whether the literal at a place was assumed.
fn is_assumed(engine: &Engine, place: Option<usize>) -> bool {
    match place {
        Some(place) => place < engine.trail().len() && engine.reason_at(place).is_none(),
        None => false,
    }
}

// Leaves the pairs of the chain from the reason of a literal back to the literal that it came from alone, and gives that one's
// place; none where it is true without any assumption.
fn gather_way(
    pool: &Pool,
    engine: &Engine,
    shortcuts: &mut Shortcuts,
    place: usize,
    reason: Ref,
) -> Result<Option<usize>, Memory>
    requires { place < length engine.now.lits }
{
    let trail = engine.trail();
    let fixed = engine.end_of(0);
    shortcuts.pairs.clear();
    shortcuts.ahead.clear();
    put_others(engine, pool, &mut shortcuts.ahead, reason, trail[place])?;
    let mut origin = None;
    let mut end = place;
    for _ in 0..place {
        let Some(at) = next_ahead(&mut shortcuts.ahead, end) else {
            return Ok(origin);
        };
        end = at;
        if at >= trail.len() {
            continue;
        }
        let lit = trail[at];
        let is_end = at >= fixed
            && shortcuts.is_key(lit.var())
            && is_alone(&mut shortcuts.ahead, at, fixed)?;
        match engine.reason_at(at) {
            Some(reason) if !is_end => {
                let with = shortcuts.known(lit.var()).unwrap_or(reason);
                shortcuts.pairs.push(Pair {
                    lit: lit.not(),
                    with,
                })?;
                put_others(engine, pool, &mut shortcuts.ahead, with, lit)?;
            }
            _ => origin = Some(at),
        }
    }
    Ok(origin)
}

// Whether nothing above level 0 is ahead before this place.
fn is_alone(
    ahead: &mut BinaryHeap<usize, Global>,
    end: usize,
    fixed: usize,
) -> Result<bool, Memory> {
    let Some(next) = next_ahead(ahead, end) else {
        return Ok(true);
    };
    ahead.push(next)?;
    Ok(next < fixed)
}

/// The latest place ahead and before this one.
pub(crate) fn next_ahead(ahead: &mut BinaryHeap<usize, Global>, end: usize) -> Option<usize>
    ensures { IfSome result (λ place. place < end) }
{
    while let Some(place) = ahead.pop() {
        if place < end {
            return Some(place);
        }
    }
    None
}

/// Puts the places of a clause's literals ahead, but not that of this one's variable.
pub(crate) fn put_others(
    engine: &Engine,
    pool: &Pool,
    ahead: &mut BinaryHeap<usize, Global>,
    at: Ref,
    left_out: Lit,
) -> Result<(), Memory> {
    if at >= pool.len() {
        return Ok(());
    }
    for lit in pool.lits(at) {
        if lit.var() == left_out.var() || lit.var() >= engine.vars() {
            continue;
        }
        if let Some(place) = engine.place_of(lit.var()) {
            ahead.push(place)?;
        }
    }
    Ok(())
}
