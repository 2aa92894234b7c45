//! A solver: many questions over the same given clauses.
ghost use Rattle.std.specs.Prelude.{◌≡◌, ℕ, List, ◌+◌, ◌*◌, ◌<◌, ◌≤◌, length, take, drop, IfOk, OnOk, true};
ghost use Rattle.clause_pool.specs.Clause.{has, AreBelow};
ghost use Rattle.chains.specs.Growth.{given_of};
ghost use Rattle.pb_base.specs.Sets.{has as has_code};
ghost use Rattle.propagate.specs.Trail.{IsTrail, AreLiterals, level};
ghost use Rattle.propagate.specs.Quiet.{IsConsistent};
ghost use Rattle.solver.specs.Answer.{AreHeld, Begins, IsSpent};
ghost use Rattle.solver.specs.Marks.{AreClear};
ghost use Rattle.solver.specs.Search.{IsReady, IsSettled, IsAssumed, IsKept, IsFull, AllNew};
ghost use Rattle.solver.specs.Solver.{IsRight, Onwards};
ghost use Rattle.pb_base.specs.declared.limits.TheConstants.{MOST_BUDGET};

use crate::answer::Answer;
use crate::deriver::Deriver;
use crate::marks::clear;
use crate::order::Order;
use crate::resolution::Resolution;
use crate::run::{Ending, run};
use crate::way::Way;
use clause_pool::{Kernel, Lit, Pool, Ref};
use pb_base::{CodeSet, Memory};
use propagate::Engine;
use std::alloc::Global;
use std::marker::Model;

/// What comes of assuming literals.
#[derive(Clone, Copy)]
pub enum Assumed {
    /// They were assumed already.
    Before,
    /// They are assumed now.
    Now,
    /// The clause at this place is false by some of them.
    False(Ref),
}

/// Answers questions over the given clauses of a kernel, and keeps in it what it learns. Contracts see the kernel,
/// the number of variables, and how many of them, from the first on, are codes.
#[derive(Drop)]
pub struct Solver {
    alloc: Global,
    kernel: Kernel,
    engine: Engine,
    resolution: Resolution,
    way: Way,
    order: Order,
    codes: u32,
}

impl Model for Solver {
    ghost use Rattle.std.specs.Prelude.{◌≤◌};
    ghost use Rattle.solver.specs.Solver.{Solving};
    ghost use Rattle.solver.specs.Search.{IsKept};
    ghost use Rattle.solver.specs.Marks.{AreClear};

    ghost Value = { Solving };

    ghost view = { λ s. record { kernel = s.kernel; vars = s.engine.vars; codes = s.codes } };

    ghost invariant = { λ s. IsKept s.kernel.clauses s.engine s.resolution.marks.items
        × (s.codes ≤ s.engine.vars) × AreClear s.resolution.marks.items };
}

impl Solver {
    /// A solver over the clauses of a kernel, whose variables are below `vars`; the first of them are codes. On want
    /// of memory the kernel is gone. The clauses are attached by the first call that propagates.
    pub fn new(alloc: Global, kernel: Kernel, vars: u32, codes: u32) -> Result<Solver, Memory>
        requires below { AreBelow (2 * vars) kernel.clauses }
        requires codes { codes ≤ vars }
        ensures { IfOk result (λ s. s ≡ record { kernel = kernel; vars = vars; codes = codes }) }
    {
        Ok(Solver {
            alloc,
            kernel,
            engine: Engine::new(alloc, vars)?,
            resolution: Resolution::new(alloc, vars as usize + vars as usize)?,
            way: Way::new(alloc),
            order: Order::new(alloc, codes)?,
            codes,
        })
    }

    /// The kernel, with all that was learnt.
    pub fn kernel(&self) -> &Kernel
        ensures { result.now ≡ self.now.kernel }
    {
        &self.kernel
    }

    /// The number of variables.
    pub fn vars(&self) -> u32
        ensures { result ≡ self.now.vars }
    {
        self.engine.vars()
    }

    /// Gives the kernel back.
    pub fn into_kernel(self) -> Kernel
        ensures { result ≡ self.kernel }
    {
        self.kernel
    }

    /// Hints for the next question: the variables of these literals are decided before others, the last one first, and
    /// this value of each is tried first. No answer becomes wrong by it.
    pub fn prefer(&mut self, hints: &[Lit])
        ensures { self.new ≡ self.old }
    {
        self.order.prefer(hints);
    }

    /// Looks for a set of codes that begins an assignment which satisfies the given clauses with each of these literals
    /// true, and learns up to so many clauses. After want of memory the same question and others may be asked again.
    pub fn solve(&mut self, assumptions: &[Lit], budget: u32) -> Result<Answer, Memory>
        requires below { AreLiterals assumptions.now (2 * self.old.vars) }
        requires consistent { IsConsistent assumptions.now }
        requires some { 0 < budget }
        requires budget { budget ≤ MOST_BUDGET }
        ensures onwards { Onwards self.old self.new }
        ensures answer { IfOk result (IsRight self.new assumptions.now budget) }
    {
        let first = self.kernel.pool().len();
        prepare(
            &self.kernel,
            &mut self.engine,
            &self.resolution,
            &mut self.order,
        )?;
        let searched = run(
            &mut self.kernel,
            &mut self.engine,
            &mut self.resolution,
            &mut self.way,
            &mut self.order,
            assumptions,
            budget,
        );
        let Ok(ending) = searched else {
            clear(&mut self.resolution.marks);
            return Err(Memory);
        };
        match ending {
            Ending::Full => {
                let codes = self.codes;
                let set = found_set(self.alloc, &self.kernel, &self.engine, codes, assumptions)?;
                Ok(Answer::Set(set))
            }
            Ending::Closed(at) => Ok(Answer::Closed(at)),
            Ending::Spent => {
                let vars = self.engine.vars();
                let learnt = learnt_from(
                    self.alloc,
                    &self.kernel,
                    vars,
                    first,
                    assumptions,
                    budget,
                )?;
                Ok(Answer::Spent(learnt))
            }
        }
    }

    /// Assumes these literals, one after the other, each unless it has a value, and propagates each. Where a clause is false on the
    /// way, its place is given, and no more is assumed. Where just these are assumed already, nothing is propagated again.
    pub fn assume(&mut self, lits: &[Lit]) -> Result<Assumed, Memory>
        ensures { self.new ≡ self.old }
    {
        if are_assumed(&self.engine, lits) {
            return Ok(Assumed::Before);
        }
        let found = assume_each(
            &self.kernel,
            &mut self.engine,
            &self.resolution,
            &mut self.order,
            lits,
        )?;
        match found {
            Some(at) => Ok(Assumed::False(at)),
            None => Ok(Assumed::Now),
        }
    }

    /// Assumes a further literal, unless it has a value, and gives the place of the clause that is false then, if one is.
    /// Where the kernel derived something since the last propagation, nothing is assumed.
    #[tactic(auto, using(crate::proofs::LearnLaws::kept_moved))]
    pub fn assume_further(&mut self, lit: Lit) -> Result<Option<Ref>, Memory>
        ensures { self.new ≡ self.old }
    {
        propagate_further(&self.kernel, &mut self.engine, lit)
    }

    /// Lets a deriver derive further clauses. It sees the trail that the last propagation left.
    #[tactic(auto, using(crate::proofs::PoolLaws::kept_grown))]
    pub fn derive_by<D: Deriver>(&mut self, deriver: &mut D) -> Result<(), Memory>
        ensures { Onwards self.old self.new }
    {
        deriver.derive(&mut self.kernel, &self.engine)
    }
}

// Whether each level begins with one of these literals, in their sequence, the last level with the last of them, and the others
// are true.
fn are_assumed(engine: &Engine, lits: &[Lit]) -> bool {
    let mut level: u32 = 0;
    let mut is_last = false;
    for lit in lits {
        let end = engine.end_of(level);
        is_last = level < engine.level() && engine.trail().get(end) == Some(lit);
        if is_last {
            level = level.wrapping_add(1);
        } else if !holds(engine, *lit) {
            return false;
        }
    }
    is_last && level == engine.level()
}

// Whether a literal is one of the engine's and true.
fn holds(engine: &Engine, lit: Lit) -> bool {
    lit.var() < engine.vars() && engine.value(lit) == Some(true)
}

// Assumes these literals alone, each unless it has a value, and propagates each. The clause that is false on the way, if one is.
#[tactic(auto, using(crate::proofs::LearnLaws::kept_moved))]
fn assume_each(
    kernel: &Kernel,
    engine: &mut Engine,
    resolution: &Resolution,
    order: &mut Order,
    lits: &[Lit],
) -> Result<Option<Ref>, Memory>
    requires kept { IsKept kernel.now.clauses engine.old resolution.now.marks.items }
    requires clear { AreClear resolution.now.marks.items }
    ensures kept { IsKept kernel.now.clauses engine.new resolution.now.marks.items }
    ensures vars { engine.new.vars ≡ engine.old.vars }
{
    prepare(kernel, engine, resolution, order)?;
    let found = engine.propagate(kernel.pool())?;
    if found.is_some() {
        return Ok(found);
    }
    for lit in lits {
        let found = propagate_further(kernel, engine, *lit)?;
        if found.is_some() {
            return Ok(found);
        }
    }
    Ok(None)
}

// Assumes a further literal, unless it has a value, and gives the clause that is false then.
fn propagate_further(kernel: &Kernel, engine: &mut Engine, lit: Lit) -> Result<Option<Ref>, Memory>
    requires attached { engine.old.clauses ≡ take (length engine.old.clauses) kernel.now.clauses }
    ensures clauses { engine.new.clauses ≡ engine.old.clauses }
    ensures vars { engine.new.vars ≡ engine.old.vars }
{
    let pool = kernel.pool();
    if engine.clauses() < pool.len() || engine.level() >= engine.vars() {
        return Ok(None);
    }
    if lit.var() >= engine.vars() || engine.value(lit).is_some() {
        return Ok(None);
    }
    engine.assume(lit);
    engine.propagate(pool)
}

// Takes all levels back. Each variable keeps its value to try it again.
fn take_back(engine: &mut Engine, order: &mut Order)
    ensures level { level engine.new ≡ 0 }
    ensures clauses { engine.new.clauses ≡ engine.old.clauses }
    ensures vars { engine.new.vars ≡ engine.old.vars }
{
    let end = engine.end_of(0);
    order.put_back(engine.trail(), end);
    engine.back_to(0);
}

// Takes all levels back, and attaches what is not attached yet.
fn prepare(
    kernel: &Kernel,
    engine: &mut Engine,
    resolution: &Resolution,
    order: &mut Order,
) -> Result<(), Memory>
    requires kept { IsKept kernel.now.clauses engine.old resolution.now.marks.items }
    requires clear { AreClear resolution.now.marks.items }
    ensures kept { IsKept kernel.now.clauses engine.new resolution.now.marks.items }
    ensures vars { engine.new.vars ≡ engine.old.vars }
    ensures level { level engine.new ≡ 0 }
    ensures ready { OnOk result (IsReady kernel.now.clauses engine.new resolution.now.marks.items) }
    ensures settled { OnOk result (IsSettled engine.new) }
    ensures assumed { OnOk result ((assumptions : List ℕ) → IsAssumed assumptions 1 engine.new) }
{
    take_back(engine, order);
    order.begin();
    attach_rest(engine, kernel.pool())?;
    Ok(())
}

// Attaches the clauses of a pool that are not attached yet.
fn attach_rest(engine: &mut Engine, pool: &Pool) -> Result<(), Memory>
    requires level { level engine.old ≡ 0 }
    requires attached { engine.old.clauses ≡ take (length engine.old.clauses) pool.now.clauses }
    requires below { AreBelow (2 * engine.old.vars) pool.now.clauses }
    ensures level { level engine.new ≡ 0 }
    ensures attached { engine.new.clauses ≡ take (length engine.new.clauses) pool.now.clauses }
    ensures vars { engine.new.vars ≡ engine.old.vars }
    ensures all { OnOk result (engine.new.clauses ≡ pool.now.clauses) }
    ensures trail { OnOk result (IsTrail engine.new) }
{
    while engine.clauses() < pool.len() {
        let at = engine.clauses();
        engine.attach(pool, at)?;
    }
    engine.trail();
    Ok(())
}

// Whether a code is true.
fn is_true(engine: &Engine, code: u32) -> bool
    requires { code < engine.now.vars }
    ensures { result ≡ has engine.now.lits (2 * code) }
{
    engine.value(Lit::new(code, true)) == Some(true)
}

// The codes that are true.
fn true_codes(alloc: Global, engine: &Engine, codes: u32) -> Result<CodeSet, Memory>
    requires { codes ≤ engine.now.vars }
    ensures counted { IfOk result (λ x. length x ≡ codes) }
    ensures codes { IfOk result (λ x. (i : ℕ) → i < codes → has_code x i ≡ has engine.now.lits (2 * i)) }
{
    let mut set = CodeSet::none(alloc, codes)?;
    for code in 0..codes {
        if !is_true(engine, code) {
            continue;
        }
        set.with(code);
    }
    Ok(set)
}

// The set that a search ended with.
fn found_set(
    alloc: Global,
    kernel: &Kernel,
    engine: &Engine,
    codes: u32,
    assumptions: &[Lit],
) -> Result<CodeSet, Memory>
    requires codes { codes ≤ engine.now.vars }
    requires attached { engine.now.clauses ≡ kernel.now.clauses }
    requires below { AreBelow (2 * engine.now.vars) kernel.now.clauses }
    requires full { IsFull engine.now }
    requires held { AreHeld assumptions.now engine.now.lits }
    ensures { IfOk result (Begins (given_of kernel.now) assumptions.now codes) }
{
    engine.trail();
    let set = true_codes(alloc, engine, codes)?;
    Ok(set)
}

// The clauses of a pool from one place on, as a pool of their own.
fn clauses_from(alloc: Global, pool: &Pool, first: Ref) -> Result<Pool, Memory>
    requires { first ≤ length pool.now.clauses }
    ensures { IfOk result (λ learnt. learnt.clauses ≡ drop first pool.now.clauses) }
{
    let mut learnt = Pool::new(alloc);
    for at in first..pool.len() {
        learnt.add(pool.lits(at))?;
    }
    Ok(learnt)
}

// The clauses that a search learnt, which are those from one place on.
fn learnt_from(
    alloc: Global,
    kernel: &Kernel,
    vars: u32,
    first: Ref,
    assumptions: &[Lit],
    budget: u32,
) -> Result<Pool, Memory>
    requires below { AreBelow (2 * vars) kernel.now.clauses }
    requires given { kernel.now.given ≤ first }
    requires count { length kernel.now.clauses ≡ first + budget }
    requires fresh { AllNew assumptions.now first kernel.now.clauses }
    ensures { IfOk result (λ learnt. IsSpent vars (given_of kernel.now) assumptions.now budget
        learnt.clauses) }
{
    let pool = kernel.pool();
    let learnt = clauses_from(alloc, pool, first)?;
    Ok(learnt)
}
