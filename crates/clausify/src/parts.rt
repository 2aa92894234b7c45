//! The literals of the parts of a formula that are still to be joined.
ghost use Rattle.std.specs.Prelude.{◌≡◌, ◌<◌, [], ◌∷◌, length, OnOk};

use clause_pool::Lit;
use pb_base::Memory;
use std::alloc::Global;
use std::marker::Model;

/// Literals, of which the last is taken first. Contracts see them in that order.
#[derive(Drop)]
pub(crate) struct Parts {
    lits: Vec<Lit>,
}

impl Model for Parts {
    ghost use Rattle.std.specs.Prelude.{ℕ, List, reverse};

    ghost Value = { List ℕ };

    ghost view = { λ p. reverse p.lits.items };
}

impl Parts {
    pub(crate) fn new(alloc: Global) -> Parts
        ensures { result ≡ [] }
    {
        Parts {
            lits: Vec::new(alloc),
        }
    }

    pub(crate) fn push(&mut self, lit: Lit) -> Result<(), Memory>
        ensures { OnOk result (self.new ≡ lit ∷ self.old) }
    {
        self.lits.push(lit)?;
        Ok(())
    }

    pub(crate) fn pop(&mut self) -> Lit
        requires { 0 < length self.old }
        ensures { self.old ≡ result ∷ self.new }
    {
        self.lits.pop().unwrap()
    }
}
