//! The order in which variables are decided, and the values that are tried first. No contract speaks of it.
ghost use Rattle.std.specs.Prelude.{◌≡◌, ◌⊎◌, ℕ, ◌+◌, ◌*◌, ◌/◌, ◌<◌, IfSome, IfNone, OnSome, true, false};
ghost use Rattle.clause_pool.specs.Literal.{complement};
ghost use Rattle.clause_pool.specs.Clause.{has};

use crate::rank::Ranking;
use clause_pool::Lit;
use pb_base::Memory;
use propagate::Engine;
use std::alloc::Global;

// Where the step by which activities grow reaches this, all of them are halved 32 times.
const STEP_LIMIT: u64 = 1 << 48;

// Behind so many conflicts of a question its hints are forgotten.
const HINTED_CONFLICTS: u32 = 50;

/// The codes by activity, those that were in conflicts lately first, and of equals the lower one. Each has the value
/// that it had last. Other variables are not entered: once the codes have values, propagation gives them theirs.
#[derive(Drop)]
pub(crate) struct Order {
    pub(crate) ranking: Ranking,
    step: u64,
    // What is decided first, the last one before the others.
    hints: Vec<Lit>,
    // Those from this place on had their turn since the last conflict.
    hints_left: usize,
    // They were given for a question that has been asked.
    are_old: bool,
    hinted_conflicts: u32,
}

impl Order {
    /// So many codes with the value false, the lowest first.
    pub(crate) fn new(alloc: Global, codes: u32) -> Result<Order, Memory> {
        Ok(Order {
            ranking: Ranking::new(alloc, codes)?,
            step: 1 << 10,
            hints: Vec::new(alloc),
            hints_left: 0,
            are_old: false,
            hinted_conflicts: HINTED_CONFLICTS,
        })
    }

    /// The code of a literal was in a conflict. It has a value, and is entered anew where that is taken back.
    pub(crate) fn bump(&mut self, lit: Lit) {
        self.ranking.bump(lit, self.step);
    }

    /// A conflict is over: those to come count more.
    pub(crate) fn decay(&mut self) {
        self.hinted_conflicts = self.hinted_conflicts.saturating_sub(1);
        if self.hinted_conflicts == 0 {
            self.hints.clear();
        }
        self.step = self.step.saturating_add(self.step / 16);
        if self.step < STEP_LIMIT {
            return;
        }
        self.step >>= 32;
        self.ranking.halve();
    }

    /// The literals of the trail from this place on are taken back: each variable keeps its value to try it again.
    pub(crate) fn put_back(&mut self, lits: &[Lit], from: usize) {
        self.hints_left = self.hints.len();
        for place in from..lits.len() {
            self.ranking.put_back(lits[place]);
        }
    }

    /// The variables of these literals are to be decided before the others, each with this value. Where there is no room,
    /// none is.
    pub(crate) fn prefer(&mut self, hints: &[Lit]) {
        self.hints.clear();
        self.are_old = false;
        let _ = self.hints.extend_from_slice(hints);
    }

    /// A question is asked, with the hints that were given for it.
    pub(crate) fn begin(&mut self) {
        if self.are_old {
            self.hints.clear();
        }
        self.are_old = true;
        self.hints_left = self.hints.len();
        self.hinted_conflicts = HINTED_CONFLICTS;
    }

    // The next hint, if one is left.
    fn next_hint(&mut self) -> Option<Lit>
        ensures { OnSome result (self.new.hints_left < self.old.hints_left) }
    {
        if self.hints_left == 0 {
            return None;
        }
        self.hints_left -= 1;
        self.hints.get(self.hints_left).copied()
    }
}

/// The next variable to decide with the value to try, or none where each has a value.
pub(crate) fn pick(order: &mut Order, engine: &Engine) -> Option<Lit>
    ensures below { IfSome result (λ l. l < 2 * engine.now.vars) }
    ensures not_true { IfSome result (λ l. has engine.now.lits l ≡ false) }
    ensures not_false { IfSome result (λ l. has engine.now.lits (complement l) ≡ false) }
    ensures none { IfNone result ((v : ℕ) → v < engine.now.vars
        → (has engine.now.lits (2 * v) ≡ true) ⊎ (has engine.now.lits (2 * v + 1) ≡ true)) }
{
    while let Some(hint) = order.next_hint() {
        if hint.var() < engine.vars() && engine.value(hint).is_none() {
            return Some(hint);
        }
    }
    while let Some(lit) = order.ranking.pop() {
        if lit.var() < engine.vars() && engine.value(lit).is_none() {
            return Some(lit);
        }
    }
    first_open(engine)
}

// The lowest variable without a value, as its negative literal.
fn first_open(engine: &Engine) -> Option<Lit>
    ensures below { IfSome result (λ l. l < 2 * engine.now.vars) }
    ensures not_true { IfSome result (λ l. has engine.now.lits l ≡ false) }
    ensures not_false { IfSome result (λ l. has engine.now.lits (complement l) ≡ false) }
    ensures none { IfNone result ((v : ℕ) → v < engine.now.vars
        → (has engine.now.lits (2 * v) ≡ true) ⊎ (has engine.now.lits (2 * v + 1) ≡ true)) }
{
    for var in 0..engine.vars() {
        let lit = Lit::new(var, false);
        if engine.value(lit).is_none() {
            return Some(lit);
        }
    }
    None
}
