//! How many clauses may be learnt for one question.
ghost use Rattle.std.specs.Prelude.{◌≡◌, ◌<◌, ◌≤◌};
ghost use Rattle.pb_base.specs.declared.limits.TheConstants.{MOST_BUDGET};

use std::marker::Model;

/// So many clauses may be learnt for one question before it is left: 1 to 50,000.
#[derive(Drop)]
pub struct Budget {
    clauses: u32,
}

impl Model for Budget {
    ghost use Rattle.std.specs.Prelude.{ℕ, ◌<◌, ◌≤◌};
    ghost use Rattle.pb_base.specs.declared.limits.TheConstants.{MOST_BUDGET};

    ghost Value = { ℕ };

    ghost view = { λ b. b.clauses };

    ghost invariant = { λ b. (0 < b.clauses) × (b.clauses ≤ MOST_BUDGET) };
}

impl Budget {
    /// So many clauses.
    pub fn of(clauses: u32) -> Budget
        requires some { 0 < clauses }
        requires most { clauses ≤ MOST_BUDGET }
        ensures { result ≡ clauses }
    {
        Budget { clauses }
    }

    /// The number of clauses.
    pub fn clauses(&self) -> u32
        ensures value { result ≡ self.now }
        ensures some { 0 < result }
        ensures most { result ≤ MOST_BUDGET }
    {
        self.clauses
    }
}
