//! The resolution kernel.
ghost use Rattle.std.specs.Prelude.{◌≡◌, ◌+◌, ◌-◌, ◌<◌, ◌≤◌, [], length, take, slice_index, slice_index_or, IfOk, OnOk, OnErr, Some, None, Ok};
ghost use Rattle.pb_base.specs.Answers.{Answers};
ghost use Rattle.clause_pool.specs.Chain.{chain};
ghost use Rattle.clause_pool.specs.Clause.{KeepsBounds, clause_of};
ghost use Rattle.clause_pool.specs.Derivation.{AllFollow, IsDerived, grown, kernel_of, placed};

use crate::chain::{Pair, ShortPair, StepFault};
use crate::lit::Lit;
use crate::pool::{Pool, Ref};
use crate::run::run_chain;
use crate::running::Running;
use crate::steps::StepLog;
use pb_base::{Fail, Memory};
use std::alloc::Global;
use std::marker::Model;

/// Some given clauses, and further ones that were derived from them by resolution. Nothing else can be added, so every
/// clause follows from the given ones.
#[derive(Drop)]
pub struct Kernel {
    pool: Pool,
    given: usize,
    log: StepLog,
    // The running clause of a chain, and its literals in the end.
    running: Running,
    literals: Vec<Lit>,
}

impl Model for Kernel {
    ghost use Rattle.clause_pool.specs.Derivation.{Derivation, IsDerived};

    ghost Value = { Derivation };

    ghost view = { λ k.
        record { given = k.given; clauses = k.pool.clauses; starts = k.log.starts; pairs = k.log.pairs } };

    ghost invariant = { λ k. IsDerived
        (record { given = k.given; clauses = k.pool.clauses; starts = k.log.starts; pairs = k.log.pairs }) };
}

impl Kernel {
    /// A kernel over these given clauses. It takes no memory.
    pub fn of(alloc: Global, given: Pool) -> Kernel
        ensures { result ≡ kernel_of given.clauses }
    {
        Kernel {
            given: given.len(),
            pool: given,
            log: StepLog::new(alloc),
            running: Running::new(alloc),
            literals: Vec::new(alloc),
        }
    }

    /// The number of given clauses. They are the first.
    pub fn given(&self) -> usize
        ensures value { result ≡ self.now.given }
        ensures within { self.now.given ≤ length self.now.clauses }
    {
        self.given
    }

    /// All clauses, the given ones first.
    #[tactic(auto, using(crate::proofs::ChainLaws::derived_follow))]
    pub fn pool(&self) -> &Pool
        ensures clauses { result.now.clauses ≡ self.now.clauses }
        ensures derived { IsDerived self.now }
        ensures follow { AllFollow self.now }
    {
        &self.pool
    }

    /// Where the chain of the clause at this place starts, or nothing for a given clause.
    pub fn start_of(&self, at: Ref) -> Option<Ref>
        requires { at < length self.now.clauses }
        ensures given { at < self.now.given → result ≡ None }
        ensures derived { self.now.given ≤ at
            → result ≡ Some (slice_index self.now.starts (at - self.now.given)) }
    {
        if at < self.given {
            return None;
        }
        Some(self.log.start(at - self.given))
    }

    /// The pairs of the chain of the clause at this place, or none for a given clause.
    pub fn pairs_of(&self, at: Ref) -> &[ShortPair]
        requires { at < length self.now.clauses }
        ensures given { at < self.now.given → result.now ≡ [] }
        ensures derived { self.now.given ≤ at
            → result.now ≡ slice_index_or self.now.pairs (at - self.now.given) [] }
        ensures some { self.now.given ≤ at → 0 < length result.now }
        // The chain is over the clauses before this one, and this one is its resolvent.
        ensures resolvent { self.now.given ≤ at
            → chain (take at self.now.clauses) (slice_index self.now.starts (at - self.now.given)) result.now
            ≡ Ok (slice_index_or self.now.clauses at []) }
    {
        if at < self.given {
            return &[];
        }
        self.log.pairs(at - self.given)
    }

    /// Appends the resolvent of a chain, which begins with the clause at `start` and goes through the pairs in order.
    pub fn resolve(&mut self, start: Ref, pairs: &[Pair]) -> Result<Ref, Fail<StepFault>>
        requires { 0 < length pairs.now }
        ensures answer { Answers result
            (placed (chain self.old.clauses start pairs.now) (length self.old.clauses)) }
        ensures ok { OnOk result (IfOk (chain self.old.clauses start pairs.now)
            (λ c. self.new ≡ grown self.old start pairs.now c)) }
        ensures bounds { KeepsBounds self.old.clauses self.new.clauses }
        ensures unchanged { OnErr result (self.new ≡ self.old) }
    {
        run_chain(&self.pool, start, pairs, &mut self.running)?;
        self.running.write(&mut self.literals)?;
        self.pool.reserve(1, self.literals.len())?;
        self.log.push(start, pairs)?;
        Ok(self.pool.add_reserved(&self.literals))
    }

    /// The same where it is proved already that the chain has a resolvent, and that these are its literals, in any order
    /// and with repeats: the chain is not run again.
    pub fn append(&mut self, start: Ref, pairs: &[Pair], lits: &[Lit]) -> Result<Ref, Memory>
        requires some { 0 < length pairs.now }
        requires resolvent { chain self.old.clauses start pairs.now ≡ Ok (clause_of lits.now) }
        ensures place { IfOk result (λ at. at ≡ length self.old.clauses) }
        ensures ok { OnOk result (self.new ≡ grown self.old start pairs.now (clause_of lits.now)) }
        ensures bounds { KeepsBounds self.old.clauses self.new.clauses }
        ensures unchanged { OnErr result (self.new ≡ self.old) }
    {
        self.pool.reserve(1, lits.len())?;
        self.log.push(start, pairs)?;
        Ok(self.pool.add_reserved(lits))
    }
}
