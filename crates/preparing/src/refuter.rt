//! What derives short chains in a kernel.
ghost use Rattle.std.specs.Prelude.{IfOk, IfSome};
ghost use Rattle.chains.specs.Growth.{ClosedAt, Grows};

use crate::refute::{Implied, Walk, close_conflict, close_false, core_against, core_of_conflict};
use crate::share::share_disjunctions;
use crate::shortcut::Shortcuts;
use clause_pool::{Kernel, Lit, Ref};
use clausify::Gates;
use pb_base::Memory;
use propagate::Engine;
use std::alloc::Global;

/// Derives in a kernel what makes later chains short, and refutes goals that are false on the trail of an engine over the
/// first clauses of the kernel. No contract speaks of what it keeps.
#[derive(Drop)]
pub struct Refuter {
    shortcuts: Shortcuts,
    walk: Walk,
    codes: u32,
}

impl Refuter {
    /// One that keeps nothing yet. The first variables are codes. It takes no memory.
    pub fn new(alloc: Global, codes: u32) -> Refuter {
        Refuter {
            shortcuts: Shortcuts::new(alloc, codes),
            walk: Walk::new(alloc),
            codes,
        }
    }

    /// Forgets what rests on an assumption. It is to be called where the engine takes assumptions back.
    pub fn forget(&mut self) {
        self.shortcuts.forget();
    }

    /// Derives what the given clauses, over so many variables with these gates, say of codes that exclude each other and of
    /// disjunctions.
    pub fn share(
        &mut self,
        alloc: Global,
        kernel: &mut Kernel,
        gates: &Gates,
        vars: u32,
    ) -> Result<(), Memory>
        ensures { Grows kernel.old kernel.new }
    {
        let sharing = share_disjunctions(alloc, kernel, gates, self.codes, vars)?;
        self.shortcuts.lead_to(sharing);
        Ok(())
    }

    /// The first disjunction of the same literals as one, if the variable is one.
    pub fn first_of(&self, var: u32) -> Option<u32> {
        self.shortcuts.first_of(var)
    }

    /// The place of a clause that refutes a goal which is false on the trail, where it is and a clause is found. The trail
    /// rests on literals that the goal implies.
    pub fn close_false(
        &mut self,
        kernel: &mut Kernel,
        engine: &Engine,
        goal: Lit,
        implied: &[Implied],
    ) -> Result<Option<Ref>, Memory>
        ensures grows { Grows kernel.old kernel.new }
        ensures closed { IfOk result (λ found. IfSome found (ClosedAt kernel.new.clauses goal)) }
    {
        close_false(
            kernel,
            engine,
            &mut self.shortcuts,
            &mut self.walk,
            goal,
            implied,
        )
    }

    /// The same where the clause at this place is false on the trail.
    pub fn close_conflict(
        &mut self,
        kernel: &mut Kernel,
        engine: &Engine,
        goal: Lit,
        implied: &[Implied],
        at: Ref,
    ) -> Result<Option<Ref>, Memory>
        ensures grows { Grows kernel.old kernel.new }
        ensures closed { IfOk result (λ found. IfSome found (ClosedAt kernel.new.clauses goal)) }
    {
        close_conflict(
            kernel,
            engine,
            &mut self.shortcuts,
            &mut self.walk,
            goal,
            implied,
            at,
        )
    }

    /// The place of a clause of complements of what was assumed and of this literal, which is false on the trail, where one is
    /// found.
    pub fn core_against(
        &mut self,
        kernel: &mut Kernel,
        engine: &Engine,
        lit: Lit,
    ) -> Result<Option<Ref>, Memory>
        ensures { Grows kernel.old kernel.new }
    {
        core_against(kernel, engine, &mut self.shortcuts, &mut self.walk, lit)
    }

    /// The same of complements of what was assumed, this literal among it, where the clause at this place is false on the trail.
    pub fn core_of_conflict(
        &mut self,
        kernel: &mut Kernel,
        engine: &Engine,
        assumed: Lit,
        at: Ref,
    ) -> Result<Option<Ref>, Memory>
        ensures { Grows kernel.old kernel.new }
    {
        core_of_conflict(
            kernel,
            engine,
            &mut self.shortcuts,
            &mut self.walk,
            assumed,
            at,
        )
    }
}
