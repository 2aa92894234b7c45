//! Chains that may have a resolvent, and clauses that may refute a goal.
ghost use Rattle.std.specs.Prelude.{◌≡◌, [], ◌∷◌, IfOk, IfSome, OnErr, Some, slice_get};
ghost use Rattle.clause_pool.specs.Chain.{chain};
ghost use Rattle.clause_pool.specs.Literal.{complement};
ghost use Rattle.chains.specs.Growth.{ClosedAt, Grows, IsDerivedBy, resolvent_of};

use clause_pool::{Kernel, Lit, Pair, Ref};
use pb_base::{Fail, Memory};

/// The place of the resolvent of a chain, which the kernel then has, if the chain has one.
#[tactic(auto, using(crate::proofs::GrowthLaws::grows_same, crate::proofs::GrowthLaws::grows_unchanged, crate::proofs::GrowthLaws::grows_resolved))]
pub fn derive(kernel: &mut Kernel, start: Ref, pairs: &[Pair]) -> Result<Option<Ref>, Memory>
    ensures grows { Grows kernel.old kernel.new }
    ensures derived { IfOk result (IsDerivedBy kernel.old kernel.new start pairs.now
        (resolvent_of pairs.now (chain kernel.old.clauses start pairs.now))) }
    ensures err { OnErr result (kernel.new ≡ kernel.old) }
{
    if pairs.is_empty() {
        return Ok(None);
    }
    kernel.given();
    match kernel.resolve(start, pairs) {
        Ok(at) => Ok(Some(at)),
        Err(Fail::Refused(_)) => Ok(None),
        Err(Fail::Memory) => Err(Memory),
    }
}

/// The place, if the clause there has the goal's complement and no other literal.
#[tactic(auto, using(crate::proofs::GrowthLaws::closed_by_unit))]
pub fn refuting_unit(kernel: &Kernel, goal: Lit, at: Ref) -> Option<Ref>
    ensures closed { IfSome result (ClosedAt kernel.now.clauses goal) }
    ensures place { IfSome result (λ place. place ≡ at) }
    ensures found { slice_get kernel.now.clauses at ≡ Some (complement goal ∷ []) → result ≡ Some at }
{
    let pool = kernel.pool();
    if at >= pool.len() {
        return None;
    }
    let clause = pool.lits(at);
    if clause.len() != 1 || clause[0] != goal.not() {
        return None;
    }
    Some(at)
}
