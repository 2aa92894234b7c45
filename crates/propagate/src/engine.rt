//! Unit propagation by two watched literals.
ghost use Rattle.std.specs.Prelude.{◌≡◌, ℕ, ◌+◌, ◌*◌, ◌/◌, ◌<◌, ◌≤◌, ◌++◌, [], ◌∷◌, length, slice_index, slice_index_or, IfOk, IfSome, IfNone, OnOk, OnErr, All, ◌^◌, Ok, None, true, false};
ghost use Rattle.clause_pool.specs.Literal.{complement};
ghost use Rattle.clause_pool.specs.Clause.{has};
ghost use Rattle.propagate.specs.Trail.{IsTrail, AllFalse, level, end_of, upto};
ghost use Rattle.propagate.specs.Quiet.{Quiet, IsConsistent};
ghost use Rattle.propagate.specs.Engine.{empty_trail, Extends, with_assumed, cut, IsOpenAbove, IsOpen, IsLevelOf};
ghost use Rattle.propagate.specs.Assignment.{IsAssigned, AreLiteralsOf, value_over};
ghost use Rattle.propagate.specs.Visiting.{scene, IsConflict};
ghost use Rattle.propagate.specs.Running.{Ran};
ghost use Rattle.propagate.specs.Joining.{Joined, trail_of};
ghost use Rattle.propagate.specs.Watching.{Visits, IsVisiting, IsHeld};

use crate::assignment::Assignment;
use crate::attach::{first_open, other_late, other_open};
use crate::plain::run_plainly;
use crate::visit::{put_only, visit};
use crate::watch::Watched;
use crate::watches::WatchedClauses;
use clause_pool::{Lit, Pool, Ref};
use pb_base::Memory;
use std::alloc::Global;
use std::marker::Model;

/// Makes true what clauses force, once some literals are assumed. Contracts see its trail.
#[derive(Drop)]
pub struct Engine {
    assignment: Assignment,
    watched: WatchedClauses,
    // The literals before this place of the trail have been visited.
    head: usize,
    // For each level, how many had been when it was opened.
    heads: Vec<usize>,
    // A clause that is false without any assumption.
    refuted: Option<u32>,
}

impl Model for Engine {
    ghost use Rattle.std.specs.Prelude.{◌≤◌, vec_capacity};
    ghost use Rattle.propagate.specs.Trail.{Trail};
    ghost use Rattle.propagate.specs.Visiting.{scene};
    ghost use Rattle.propagate.specs.Running.{IsEngine, visits};

    ghost Value = { Trail };

    ghost view = { λ e. record {
      vars = e.assignment.vars;
      clauses = e.watched.clauses;
      lits = e.assignment.lits;
      reasons = e.assignment.reasons;
      starts = e.assignment.starts;
    } };

    ghost invariant = { λ e. IsEngine (scene e.assignment e.watched) (visits e.heads.items e.head) e.refuted
        × (e.assignment.vars ≤ vec_capacity e.heads) };
}

impl Engine {
    /// An engine of so many variables, with no clause attached and nothing true. The room for all of them and
    /// as many levels is made here.
    pub fn new(alloc: Global, vars: u32) -> Result<Engine, Memory>
        ensures { IfOk result (λ e. e ≡ empty_trail vars) }
    {
        let room = vars as usize;
        Ok(Engine {
            assignment: Assignment::new(alloc, vars)?,
            watched: WatchedClauses::new(alloc, room + room)?,
            head: 0,
            heads: Vec::with_capacity(alloc, room)?,
            refuted: None,
        })
    }

    /// Whether a literal is true or false, or neither.
    pub fn value(&self, lit: Lit) -> Option<bool>
        requires { lit < 2 * self.now.vars }
        ensures { result ≡ value_over self.now.lits lit }
    {
        self.assignment.value(lit.code() as u32)
    }

    /// The place of a variable's literal on the trail; none where the variable is open.
    pub fn place_of(&self, var: u32) -> Option<usize>
        requires { var < self.now.vars }
        ensures within { IfSome result (λ place. place < length self.now.lits) }
        ensures variable { IfSome result (λ place. slice_index self.now.lits place / 2 ≡ var) }
        ensures open_variable { IfNone result (IsOpen self.now var) }
    {
        self.assignment.place_of(var)
    }

    /// The clause that made a variable's literal true; none where the variable is open or its literal was
    /// assumed.
    #[tactic(auto, using(crate::proofs::TakeLaws::one_place))]
    pub fn reason(&self, var: u32) -> Option<Ref>
        requires { var < self.now.vars }
        ensures reason { (k : ℕ) → k < length self.now.lits → slice_index self.now.lits k / 2 ≡ var
            → result ≡ slice_index_or self.now.reasons k None }
        ensures open_variable { IsOpen self.now var → result ≡ None }
    {
        let Some(place) = self.place_of(var) else {
            return None;
        };
        self.assignment.assigned_law();
        self.reason_at(place)
    }

    /// The level at which a variable came to the trail; none where it is open.
    pub fn level_of(&self, var: u32) -> Option<u32>
        requires { var < self.now.vars }
        ensures level { IfSome result (λ n. IsLevelOf self.now var n) }
        ensures open_variable { IfNone result (IsOpen self.now var) }
    {
        let Some(place) = self.place_of(var) else {
            return None;
        };
        self.assignment.level();
        Some(self.assignment.level_at(place) as u32)
    }

    /// The clause that made the literal at this place of the trail true.
    pub fn reason_at(&self, place: usize) -> Option<Ref>
        requires { place < length self.now.lits }
        ensures { result ≡ slice_index_or self.now.reasons place None }
    {
        match self.assignment.reason_at(place) {
            Some(clause) => Some(clause as usize),
            None => None,
        }
    }

    /// Where the literals of the levels up to this one end.
    pub fn end_of(&self, n: u32) -> usize
        ensures { result ≡ end_of self.now n }
    {
        self.assignment.end_of(n as usize)
    }

    /// The number of variables.
    pub fn vars(&self) -> u32
        ensures { result ≡ self.now.vars }
    {
        self.assignment.vars()
    }

    /// The number of attached clauses.
    pub fn clauses(&self) -> usize
        ensures { result ≡ length self.now.clauses }
    {
        self.watched.count()
    }

    /// Attaches the next clause of a pool; a literal that it forces may become true at once. The first call
    /// makes room for what the pool has by then. On want of memory the engine is as before. There is no room
    /// for 2^31 clauses.
    pub fn attach(&mut self, pool: &Pool, at: Ref) -> Result<(), Memory>
        requires next { at ≡ length self.old.clauses }
        requires there { at < length pool.now.clauses }
        requires below { (l : ℕ) → has (slice_index_or pool.now.clauses at []) l ≡ true
            → l < 2 * self.old.vars }
        requires open_above { 0 < level self.old
            → IsOpenAbove self.old (slice_index_or pool.now.clauses at []) }
        ensures clauses { OnOk result
            (self.new.clauses ≡ self.old.clauses ++ slice_index_or pool.now.clauses at [] ∷ []) }
        ensures extends { Extends self.old self.new }
        ensures trail { IsTrail self.new }
        ensures err { OnErr result (self.new ≡ self.old) }
    {
        self.assignment.assigned_law();
        let Ok(clause) = u32::try_from(at) else {
            return Err(Memory);
        };
        self.watched.lay_out(pool)?;
        if !join(
            &mut self.assignment,
            &mut self.watched,
            pool.lits(at),
            clause,
        )? {
            self.refuted = Some(clause);
        }
        Ok(())
    }

    /// Opens a level in which this literal is true. It takes no memory.
    pub fn assume(&mut self, lit: Lit)
        requires below { lit < 2 * self.old.vars }
        requires not_false { has self.old.lits (complement lit) ≡ false }
        requires room { level self.old < self.old.vars }
        ensures { self.new ≡ with_assumed self.old lit }
    {
        self.assignment.assigned_law();
        let code = lit.code() as u32;
        self.heads.push(self.head).unwrap();
        self.assignment.open_level();
        if self.assignment.is_true(code) {
            return;
        }
        self.assignment.put(lit, None);
    }

    /// The literals that are true, the earliest first.
    pub fn trail(&self) -> &[Lit]
        ensures lits { result.now ≡ self.now.lits }
        ensures trail { IsTrail self.now }
    {
        self.assignment.lits()
    }

    /// The number of levels.
    pub fn level(&self) -> u32
        ensures level { result ≡ level self.now }
        ensures trail { IsTrail self.now }
    {
        self.assignment.assigned_law();
        self.assignment.level() as u32
    }

    /// Makes true what the attached clauses force, up to the first clause that is false; its place is given.
    pub fn propagate(&mut self, pool: &Pool) -> Result<Option<Ref>, Memory>
        requires { pool.now.clauses ≡ self.old.clauses }
        ensures clauses { self.new.clauses ≡ self.old.clauses }
        ensures extends { Extends self.old self.new }
        ensures conflict { IfOk result (λ found. IfSome found (λ at.
            AllFalse self.new.lits (slice_index_or self.new.clauses at []))) }
        ensures attached { IfOk result (λ found. IfSome found (λ at. at < length self.new.clauses)) }
        ensures quiet { result ≡ Ok None → Quiet self.new.clauses self.new.lits }
    {
        self.assignment.assigned_law();
        if let Some(clause) = self.refuted {
            return Ok(Some(clause as usize));
        }
        let found = run(&mut self.assignment, &mut self.watched, &mut self.head)?;
        let Some(clause) = found else {
            return Ok(None);
        };
        Ok(Some(clause as usize))
    }

    /// The same by going through all clauses again and again, which is slow: what `propagate` means. It takes
    /// no memory.
    pub fn propagate_plainly(&mut self, pool: &Pool) -> Option<Ref>
        requires { pool.now.clauses ≡ self.old.clauses }
        ensures clauses { self.new.clauses ≡ self.old.clauses }
        ensures extends { Extends self.old self.new }
        ensures conflict { IfSome result (λ at.
            AllFalse self.new.lits (slice_index_or self.new.clauses at [])) }
        ensures attached { IfSome result (λ at. at < length self.new.clauses) }
        ensures quiet { result ≡ None → Quiet self.new.clauses self.new.lits }
    {
        self.assignment.assigned_law();
        run_plainly(&mut self.assignment, pool)
    }

    /// Takes back all levels behind this one. It takes no memory.
    pub fn back_to(&mut self, n: u32)
        requires { n ≤ level self.old }
        ensures { self.new ≡ cut self.old n }
    {
        let n = n as usize;
        self.assignment.assigned_law();
        if n < self.heads.len() {
            self.head = self.heads[n];
            self.heads.truncate(n);
            self.assignment.cut(n);
        }
    }
}

// Visits the literals of the trail from this place on, up to the first clause that is false.
fn run(
    assignment: &mut Assignment,
    watched: &mut WatchedClauses,
    head: &mut usize,
) -> Result<Option<u32>, Memory>
    requires codes { length watched.old.lists ≡ assignment.old.vars + assignment.old.vars }
    ensures ran { Ran (scene assignment.old watched.old) (scene assignment.new watched.new)
        head.old head.new }
    ensures conflict { IfOk result (λ found. IfSome found (IsConflict (scene assignment.new watched.new))) }
    ensures finished { result ≡ Ok None → length assignment.new.lits ≤ head.new }
    ensures consistent { result ≡ Ok None → IsConsistent assignment.new.lits }
{
    while *head < assignment.lits().len() {
        let code = assignment.lits()[*head].not().code() as u32;
        let found = visit(assignment, watched, code)?;
        if found.is_some() {
            return Ok(found);
        }
        *head += 1;
    }
    Ok(None)
}

// Attaches a clause, and says whether it has a literal that isn't false.
fn join(
    assignment: &mut Assignment,
    watched: &mut WatchedClauses,
    lits: &[Lit],
    clause: u32,
) -> Result<bool, Memory>
    requires codes { length watched.old.lists ≡ assignment.old.vars + assignment.old.vars }
    requires below { AreLiteralsOf assignment.old lits.now }
    requires small { All (λ l. l < 2 ^ 32) lits.now }
    requires place { clause ≡ length watched.old.clauses }
    requires open_above { 0 < length assignment.old.starts
        → IsOpenAbove (trail_of (scene assignment.old watched.old)) lits.now }
    ensures joined { OnOk result
        (Joined (scene assignment.old watched.old) (scene assignment.new watched.new) lits.now) }
    ensures held { result ≡ Ok true → (v : Visits) → IsVisiting assignment.old v
        → IsHeld assignment.new v watched.new (length watched.old.clauses) }
    ensures refuted { result ≡ Ok false
        → AllFalse (upto (trail_of (scene assignment.new watched.new)) 0) lits.now }
    ensures assigned { IsAssigned assignment.new }
    ensures same_literals { OnErr result (assignment.new ≡ assignment.old) }
    ensures same_clauses { OnErr result (watched.new ≡ watched.old) }
{
    assignment.assigned_law();
    let Some(first) = first_open(assignment, lits) else {
        watched.push_plain(lits)?;
        return Ok(false);
    };
    if let Some(second) = other_open(assignment, lits, first) {
        watched.push_pair(lits, Watched { first, second })?;
        return Ok(true);
    }
    let end = assignment.end_of(assignment.level().saturating_sub(1));
    if let Some(second) = other_late(assignment, lits, first, end) {
        watched.push_pair(lits, Watched { first, second })?;
        put_only(assignment, first, clause);
        return Ok(true);
    }
    watched.push_plain(lits)?;
    put_only(assignment, first, clause);
    Ok(true)
}
