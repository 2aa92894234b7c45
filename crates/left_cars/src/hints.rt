//! At which values of codes a search is pointed. No contract speaks of it.
ghost use Rattle.std.specs.Prelude.{◌≡◌, length};

use crate::seen::Seen;
use clause_pool::Lit;
use pb_base::Memory;
use solver::Solver;
use std::alloc::Global;

/// The values that no car has shown that was found.
#[derive(Drop)]
pub(crate) struct Hints {
    lits: Vec<Lit>,
}

impl Hints {
    /// None yet.
    pub(crate) fn none(alloc: Global) -> Hints {
        Hints {
            lits: Vec::new(alloc),
        }
    }

    /// Points the next search of a solver. Where values can't stand together, those of the first codes are shown first.
    pub(crate) fn point(&self, solver: &mut Solver)
        ensures { solver.new ≡ solver.old }
    {
        solver.prefer(&self.lits);
    }

    /// What is left to be shown. Values that were refuted since are harmless: propagation gives their codes a value first.
    pub(crate) fn renew(&mut self, seen: &Seen) -> Result<(), Memory>
        requires { length seen.now.with_it ≡ length seen.now.without }
    {
        self.lits.clear();
        // The last hint is taken first.
        for place in (0..seen.with_it.len()).rev() {
            match seen.only_value(place) {
                Some(value) => self.lits.push(Lit::new(place, !value))?,
                None => {}
            }
        }
        Ok(())
    }
}
