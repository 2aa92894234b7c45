//! Where the variables and clauses of a slice stand: those of each record, and of each variable that joins two literals.
ghost use Rattle.std.specs.Prelude.{◌≡◌};
ghost use Rattle.clausify.specs.Layout.{gate_at};

use crate::joint::Joint;
use clause_pool::{Lit, Ref};

/// A variable that joins two literals, by its parts and the place of the first of its three clauses.
#[derive(Clone, Copy, Debug)]
pub struct Gate {
    pub joint: Joint,
    pub left: Lit,
    pub right: Lit,
    pub clause: Ref,
}

/// The gates of variables that stand one behind another: the gate at place k is that of variable `first` + k.
#[derive(Drop)]
pub struct Gates {
    pub first: u32,
    pub list: Vec<Gate>,
}

/// Where what a record makes begins: the variable that is taken next, and the place of the clause that is made next.
#[derive(Clone, Copy, Debug, PartialEq, Eq)]
pub struct Start {
    pub var: u32,
    pub clause: Ref,
}

/// Where the variables and clauses of a slice stand. Each variable behind the one that is always true has a gate. The starts
/// are those of the records that are active, first the supplementing rules, then the constructibility rules, then the
/// variants of each active position; each record ends where the next begins, and the last where the goals do.
#[derive(Drop)]
pub struct Layout {
    pub gates: Gates,
    pub starts: Vec<Start>,
    pub goals: Start,
}

impl Gates {
    /// The gate of a variable, or None where it has none.
    pub fn gate(&self, var: u32) -> Option<Gate>
        ensures { result ≡ gate_at self.now var }
    {
        if var < self.first {
            return None;
        }
        self.list.get((var - self.first) as usize).copied()
    }
}
