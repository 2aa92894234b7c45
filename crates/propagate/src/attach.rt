//! Which literals of a further clause are watched.
ghost use Rattle.std.specs.Prelude.{◌≡◌, ◌-◌, ◌<◌, take, IfSome, IfNone, Some, true, false};
ghost use Rattle.clause_pool.specs.Literal.{complement};
ghost use Rattle.clause_pool.specs.Clause.{has};
ghost use Rattle.propagate.specs.Trail.{AllFalse, OthersFalse};
ghost use Rattle.propagate.specs.Assignment.{AreLiteralsOf};

use crate::assignment::Assignment;
use clause_pool::Lit;

/// The first literal of a clause that isn't false.
pub(crate) fn first_open(assignment: &Assignment, lits: &[Lit]) -> Option<u32>
    requires { AreLiteralsOf assignment.now lits.now }
    ensures is_in { IfSome result (λ l. has lits.now l ≡ true) }
    ensures not_false { IfSome result (λ l. has assignment.now.lits (complement l) ≡ false) }
    ensures none { IfNone result (AllFalse assignment.now.lits lits.now) }
{
    assignment.assigned_law();
    for lit in lits {
        let code = lit.code() as u32;
        if !assignment.is_false(code) {
            return Some(code);
        }
    }
    None
}

/// The first literal of a clause that isn't false, and isn't the one that is left out.
pub(crate) fn other_open(assignment: &Assignment, lits: &[Lit], left_out: u32) -> Option<u32>
    requires { AreLiteralsOf assignment.now lits.now }
    ensures is_in { IfSome result (λ l. has lits.now l ≡ true) }
    ensures apart { IfSome result (λ l. left_out ≡ l → ⊥) }
    ensures not_false { IfSome result (λ l. has assignment.now.lits (complement l) ≡ false) }
    ensures none { IfNone result (OthersFalse assignment.now.lits lits.now left_out) }
{
    assignment.assigned_law();
    for lit in lits {
        let code = lit.code() as u32;
        if code != left_out && !assignment.is_false(code) {
            return Some(code);
        }
    }
    None
}

/// The first other literal of a clause that wasn't false before this place of the trail.
pub(crate) fn other_late(
    assignment: &Assignment,
    lits: &[Lit],
    left_out: u32,
    end: usize,
) -> Option<u32>
    requires { AreLiteralsOf assignment.now lits.now }
    ensures is_in { IfSome result (λ l. has lits.now l ≡ true) }
    ensures apart { IfSome result (λ l. left_out ≡ l → ⊥) }
    ensures late { IfSome result (λ l. has (take end assignment.now.lits) (complement l) ≡ false) }
    ensures none { IfNone result (OthersFalse (take end assignment.now.lits) lits.now left_out) }
{
    assignment.assigned_law();
    for lit in lits {
        let code = lit.code() as u32;
        if code != left_out && !assignment.was_false(code, end) {
            return Some(code);
        }
    }
    None
}
