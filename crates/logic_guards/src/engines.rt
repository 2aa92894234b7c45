//! What propagation and resolution can't do.
ghost use Rattle.std.specs.Prelude.{◌≡◌, ◌≤◌, ◌<◌, ℕ, Contains, IfOk, List, None, Ok, Some, length, slice_get, true};
ghost use Rattle.clause_pool.specs.Clause.{has};
ghost use Rattle.propagate.specs.Trail.{OthersFalse, level};

use clause_pool::{Kernel, Pair, Pool, Ref, StepFault};
use pb_base::{Fail, Memory};
use propagate::Engine;

/// When levels were taken back and propagation ends, each clause whose other literals are false has a true one: none is missed. A run
/// would search where the rules decide, or take a set that breaks one.
#[tactic(auto, using(crate::proofs::EngineLaws::none_missed))]
pub fn no_unit_clause_is_missed(
    engine: &mut Engine,
    pool: &Pool,
    to: u32,
) -> Result<Option<Ref>, Memory>
    requires level { to ≤ level engine.old }
    requires attached { pool.now.clauses ≡ engine.old.clauses }
    ensures { result ≡ Ok None → (c : List ℕ) (l : ℕ) → Contains pool.now.clauses c → has c l ≡ true
        → OthersFalse engine.new.lits c l → has engine.new.lits l ≡ true }
{
    engine.back_to(to);
    engine.propagate(pool)
}

/// A chain whose first pivot isn't in the clause that it starts with derives nothing. A run would derive a clause that doesn't follow.
#[tactic(auto, using(crate::proofs::EngineLaws::pivot_when))]
pub fn no_chain_starts_without_its_pivot(
    kernel: &mut Kernel,
    start: Ref,
    pairs: &[Pair],
) -> Result<Ref, Fail<StepFault>>
    requires { 0 < length pairs.now }
    ensures { IfOk result (λ _. (c : List ℕ) (pair : Pair) → slice_get kernel.old.clauses start ≡ Some c
        → slice_get pairs.now 0 ≡ Some pair → has c pair.lit ≡ true) }
{
    kernel.resolve(start, pairs)
}
