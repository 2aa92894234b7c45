//! The kernel of a checker of chains.
ghost use Rattle.std.specs.Prelude.{◌≡◌, ◌++◌, [], ◌∷◌, length, IfOk, OnOk, OnErr};
ghost use Rattle.pb_base.specs.Answers.{Answers};
ghost use Rattle.clause_pool.specs.Chain.{chain};
ghost use Rattle.clause_pool.specs.Clause.{KeepsBounds};
ghost use Rattle.clause_pool.specs.Derivation.{placed};

use crate::chain::{Pair, StepFault};
use crate::lit::Lit;
use crate::pool::{Pool, Ref};
use crate::run::run_chain;
use crate::running::Running;
use pb_base::Fail;
use std::alloc::Global;
use std::marker::Model;

/// Some given clauses, and further ones that were derived from them by resolution, as in a kernel. A checker of chains needs
/// each but once, so they are not kept. A contract sees the list of the clauses.
#[derive(Drop)]
pub struct Checker {
    pool: Pool,
    // The running clause of a chain, and its literals in the end.
    running: Running,
    literals: Vec<Lit>,
}

impl Model for Checker {
    ghost use Rattle.std.specs.Prelude.{ℕ, List};

    ghost Value = { List (List ℕ) };

    ghost view = { λ c. c.pool.clauses };
}

impl Checker {
    /// A checker over these given clauses. It takes no memory.
    pub fn of(alloc: Global, given: Pool) -> Checker
        ensures { result ≡ given.clauses }
    {
        Checker {
            pool: given,
            running: Running::new(alloc),
            literals: Vec::new(alloc),
        }
    }

    /// All clauses, the given ones first.
    pub fn pool(&self) -> &Pool
        ensures { result.now.clauses ≡ self.now }
    {
        &self.pool
    }

    /// Appends the resolvent of a chain, which begins with the clause at `start` and goes through the pairs in order.
    pub fn resolve(&mut self, start: Ref, pairs: &[Pair]) -> Result<Ref, Fail<StepFault>>
        ensures answer { Answers result (placed (chain self.old start pairs.now) (length self.old)) }
        ensures ok { OnOk result (IfOk (chain self.old start pairs.now)
            (λ c. self.new ≡ self.old ++ c ∷ [])) }
        ensures bounds { KeepsBounds self.old self.new }
        ensures unchanged { OnErr result (self.new ≡ self.old) }
    {
        run_chain(&self.pool, start, pairs, &mut self.running)?;
        self.running.write(&mut self.literals)?;
        self.pool.reserve(1, self.literals.len())?;
        Ok(self.pool.add_reserved(&self.literals))
    }
}
