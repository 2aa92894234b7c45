//! Goals refuted without a search: what they imply is propagated, and where that makes them false, the reasons are the chain.
ghost use Rattle.std.specs.Prelude.{◌≡◌};
ghost use Rattle.chains.specs.Growth.{Grows};
ghost use Rattle.solver.specs.Solver.{Onwards};

use clause_pool::{Kernel, Lit, Ref};
use clausify::Gates;
use pb_base::Memory;
use preparing::{Implied, Refuter};
use propagate::Engine;
use solver::{Assumed, Deriver, Solver};
use std::alloc::Global;
use std::mem::replace;

// What is derived next.
#[derive(Clone, Copy)]
enum Derived {
    // What the given clauses, over so many variables, say of disjunctions.
    Shared(u32),
    // The goal is false, where it is, by this one literal that it implies.
    False(Lit, Implied),
    // The clause at this place is false by the two that the goal implies.
    Conflict(Lit, Implied, Implied, Ref),
    // This literal is false, where it is, by what was assumed.
    Against(Lit),
    // The clause at this place is false by what was assumed, this literal and another one.
    Core(Lit, Ref),
}

/// A refuter of the goals of a solver. What it answers is a hint: a clause is looked at before it counts.
#[derive(Drop)]
pub(crate) struct Refuting<'a> {
    alloc: Global,
    gates: &'a Gates,
    refuter: Refuter,
    next: Derived,
    found: Option<Ref>,
    // The clause that is false by what is assumed first.
    conflict: Option<Ref>,
    // What is assumed first.
    with_first: Vec<Lit>,
    // Whether what the given clauses say of disjunctions is derived.
    shared: bool,
}

impl<'a> Deriver for Refuting<'a> {
    fn derive(&mut self, kernel: &mut Kernel, engine: &Engine) -> Result<(), Memory> {
        let next = self.next;
        match next {
            Derived::Shared(vars) => self.refuter.share(self.alloc, kernel, self.gates, vars),
            Derived::False(goal, implied) => {
                self.found = self.refuter.close_false(kernel, engine, goal, &[implied])?;
                Ok(())
            }
            Derived::Conflict(goal, first, second, at) => {
                let implied = [first, second];
                self.found = self
                    .refuter
                    .close_conflict(kernel, engine, goal, &implied, at)?;
                Ok(())
            }
            Derived::Against(lit) => {
                self.found = self.refuter.core_against(kernel, engine, lit)?;
                Ok(())
            }
            Derived::Core(assumed, at) => {
                self.found = self.refuter.core_of_conflict(kernel, engine, assumed, at)?;
                Ok(())
            }
        }
    }
}

impl<'a> Refuting<'a> {
    /// A refuter for a solver whose clauses are over so many variables and have these gates.
    pub(crate) fn new(alloc: Global, vars: u32, gates: &'a Gates, codes: u32) -> Refuting<'a> {
        Refuting {
            alloc,
            gates,
            refuter: Refuter::new(alloc, codes),
            next: Derived::Shared(vars),
            found: None,
            conflict: None,
            with_first: Vec::new(alloc),
            shared: false,
        }
    }

    /// Whether what the given clauses say of disjunctions is derived.
    pub(crate) fn has_shared(&self) -> bool {
        self.shared
    }

    /// Derives what the given clauses say of disjunctions, unless that is done.
    #[tactic(auto, using(solver::proofs::PoolLaws::onwards_same))]
    pub(crate) fn share(&mut self, solver: &mut Solver) -> Result<(), Memory>
        ensures { Onwards solver.old solver.new }
    {
        if self.shared {
            return Ok(());
        }
        self.shared = true;
        self.derive_next(solver, Derived::Shared(solver.vars()))?;
        Ok(())
    }

    /// Knows which disjunctions are of the same literals.
    pub(crate) fn refuter(&self) -> &Refuter {
        &self.refuter
    }

    /// Forgets what rests on an assumption of the solver. It is to be called before the solver is asked.
    pub(crate) fn forget(&mut self) {
        self.refuter.forget();
    }

    fn derive_next(&mut self, solver: &mut Solver, next: Derived) -> Result<Option<Ref>, Memory>
        ensures { Onwards solver.old solver.new }
    {
        self.next = next;
        self.found = None;
        solver.derive_by(self)?;
        Ok(self.found)
    }

    /// The place of a clause that refutes a goal, where propagation of a literal that the goal implies makes it false. While the
    /// same literal is implied, it is propagated once.
    #[tactic(auto, using(solver::proofs::PoolLaws::onwards_equal, solver::proofs::PoolLaws::onwards_after))]
    pub(crate) fn refute(
        &mut self,
        solver: &mut Solver,
        goal: Lit,
        implied: &Implied,
    ) -> Result<Option<Ref>, Memory>
        ensures { Onwards solver.old solver.new }
    {
        self.assume(solver, &[implied.lit])?;
        self.derive_next(solver, Derived::False(goal, *implied))
    }

    /// The same where the goal implies two literals, which are assumed one after the other.
    #[tactic(auto, using(solver::proofs::PoolLaws::onwards_twice))]
    pub(crate) fn refute_both(
        &mut self,
        solver: &mut Solver,
        goal: Lit,
        first: &Implied,
        second: &Implied,
    ) -> Result<Option<Ref>, Memory>
        ensures { Onwards solver.old solver.new }
    {
        let found = self.refute(solver, goal, first)?;
        if found.is_some() {
            return Ok(found);
        }
        self.close_both(solver, goal, first, second)
    }

    // Assumes the second literal too, and closes the goal by the clause that is false then, if one is.
    #[tactic(auto, using(solver::proofs::PoolLaws::onwards_equal, solver::proofs::PoolLaws::onwards_after))]
    fn close_both(
        &mut self,
        solver: &mut Solver,
        goal: Lit,
        first: &Implied,
        second: &Implied,
    ) -> Result<Option<Ref>, Memory>
        ensures { Onwards solver.old solver.new }
    {
        let conflict = solver.assume_further(second.lit)?;
        let Some(at) = conflict else {
            return Ok(None);
        };
        let found = self.derive_next(solver, Derived::Conflict(goal, *first, *second, at))?;
        self.forget();
        Ok(found)
    }

    // Assumes these literals alone, unless they are. While they are the same nothing is propagated again.
    fn assume(&mut self, solver: &mut Solver, lits: &[Lit]) -> Result<(), Memory>
        ensures { solver.new ≡ solver.old }
    {
        match solver.assume(lits)? {
            Assumed::Before => {}
            Assumed::Now => {
                self.forget();
                self.conflict = None;
            }
            Assumed::False(at) => {
                self.forget();
                self.conflict = Some(at);
            }
        }
        Ok(())
    }

    /// The place of a clause of the complements of two literals, or of one of them, and of some of these others, where propagation of
    /// the others and the first makes one of them false. While the same literal is the first, it is propagated once.
    #[tactic(auto, using(solver::proofs::PoolLaws::onwards_equal, solver::proofs::PoolLaws::onwards_after))]
    pub(crate) fn against(
        &mut self,
        solver: &mut Solver,
        others: &[Lit],
        first: Lit,
        second: Lit,
    ) -> Result<Option<Ref>, Memory>
        ensures { Onwards solver.old solver.new }
    {
        self.with_first.clear();
        self.with_first.extend_from_slice(others)?;
        self.with_first.push(first)?;
        let lits = replace(&mut self.with_first, Vec::new(self.alloc));
        self.assume(solver, &lits)?;
        self.with_first = lits;
        self.against_one(solver, first, second)
    }

    // The same where what is assumed is propagated.
    #[tactic(auto, using(solver::proofs::PoolLaws::onwards_twice))]
    fn against_one(
        &mut self,
        solver: &mut Solver,
        first: Lit,
        second: Lit,
    ) -> Result<Option<Ref>, Memory>
        ensures { Onwards solver.old solver.new }
    {
        if let Some(at) = self.conflict {
            return self.derive_next(solver, Derived::Core(first, at));
        }
        let found = self.derive_next(solver, Derived::Against(second))?;
        if found.is_some() {
            return Ok(found);
        }
        self.derive_next(solver, Derived::Against(first))
    }

    /// The same where both are assumed, one after the other.
    #[tactic(auto, using(solver::proofs::PoolLaws::onwards_twice))]
    pub(crate) fn against_both(
        &mut self,
        solver: &mut Solver,
        others: &[Lit],
        first: Lit,
        second: Lit,
    ) -> Result<Option<Ref>, Memory>
        ensures { Onwards solver.old solver.new }
    {
        let found = self.against(solver, others, first, second)?;
        if found.is_some() {
            return Ok(found);
        }
        self.core_of(solver, first, second)
    }

    // Assumes the second literal too, and derives from the clause that is false then, if one is.
    #[tactic(auto, using(solver::proofs::PoolLaws::onwards_equal, solver::proofs::PoolLaws::onwards_after))]
    fn core_of(
        &mut self,
        solver: &mut Solver,
        first: Lit,
        second: Lit,
    ) -> Result<Option<Ref>, Memory>
        ensures { Onwards solver.old solver.new }
    {
        let conflict = solver.assume_further(second)?;
        let Some(at) = conflict else {
            return Ok(None);
        };
        let found = self.derive_next(solver, Derived::Core(first, at))?;
        self.forget();
        Ok(found)
    }
}
