//! Unit propagation by going through all clauses again and again, as its definition has it.
ghost use Rattle.std.specs.Prelude.{◌≡◌, ◌<◌, ◌≤◌, ◌^◌, ℕ, length, IfSome, None};
ghost use Rattle.propagate.specs.Trail.{AllFalse};
ghost use Rattle.propagate.specs.Quiet.{Quiet};
ghost use Rattle.propagate.specs.Watching.{Grown, AreReasons, clause_at};
ghost use Rattle.propagate.specs.Assignment.{AreLiteralsOf};
ghost use Rattle.propagate.specs.Plain.{Says};

use crate::assignment::Assignment;
use crate::attach::{first_open, other_open};
use crate::visit::put_only;
use clause_pool::{Lit, Pool, Ref};

/// What a clause has to say of some true literals.
pub(crate) enum Saying {
    Nothing,
    /// All its literals are false.
    Conflict,
    /// All its literals but this one are false, and this one is open.
    Literal(u32),
}

// What a clause says.
fn said_by(assignment: &Assignment, lits: &[Lit]) -> Saying
    requires { AreLiteralsOf assignment.now lits.now }
    ensures { Says assignment.now.lits lits.now result }
{
    assignment.assigned_law();
    let Some(first) = first_open(assignment, lits) else {
        return Saying::Conflict;
    };
    if other_open(assignment, lits, first).is_some() || assignment.is_true(first) {
        return Saying::Nothing;
    }
    Saying::Literal(first)
}

/// Makes true what the clauses of a pool force, up to the first clause that is false.
pub(crate) fn run_plainly(assignment: &mut Assignment, pool: &Pool) -> Option<Ref>
    requires below { (k : ℕ) → AreLiteralsOf assignment.old (clause_at pool.now.clauses k) }
    requires few { length pool.now.clauses ≤ 2 ^ 32 }
    ensures grown { Grown assignment.old assignment.new }
    ensures reasoned { AreReasons pool.now.clauses assignment.old
        → AreReasons pool.now.clauses assignment.new }
    ensures attached { IfSome result (λ at. at < length pool.now.clauses) }
    ensures conflict { IfSome result (λ at. AllFalse assignment.new.lits (clause_at pool.now.clauses at)) }
    ensures quiet { result ≡ None → Quiet pool.now.clauses assignment.new.lits }
{
    let mut at = 0;
    while at < pool.len() {
        match said_by(assignment, pool.lits(at)) {
            Saying::Nothing => {
                at += 1;
                continue;
            }
            Saying::Conflict => return Some(at),
            Saying::Literal(code) => {
                put_only(assignment, code, at as u32);
                at = 0;
                continue;
            }
        }
    }
    assignment.assigned_law();
    None
}
