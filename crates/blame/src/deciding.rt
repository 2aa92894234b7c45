//! A solver that decides the codes of the book alone, and searches by it in which literals of guards are assumed.
ghost use Rattle.std.specs.Prelude.{◌≡◌, ◌*◌, ◌<◌, ◌≤◌, ℕ, Bool, List, IfOk};
ghost use Rattle.pb_base.specs.declared.limits.TheConstants.{MOST_BUDGET};
ghost use Rattle.clause_pool.specs.Clause.{AreBelow};
ghost use Rattle.chains.specs.Growth.{given_of};
ghost use Rattle.propagate.specs.Trail.{AreLiterals};
ghost use Rattle.propagate.specs.Quiet.{IsConsistent};
ghost use Rattle.solver.specs.Solver.{IsRight};
ghost use Rattle.blame.specs.Guards.{GuardedSets};
ghost use Rattle.blame.specs.Guarding.{IsGuardedAnswer};

use clause_pool::{Kernel, Lit};
use clausify::{Encoded, Encoder};
use pb_base::Memory;
use solver::{Answer, Solver};
use std::alloc::Global;

/// A solver over the clauses that an encoder made. It decides so many codes, the first ones: all other variables are to have their
/// values by these and by what is assumed.
pub(crate) fn solver_deciding(alloc: Global, encoder: Encoder, codes: u32) -> Result<Solver, Memory>
    requires below { AreBelow (2 * encoder.next) encoder.pool.clauses }
    requires codes { codes ≤ encoder.next }
    ensures clauses { IfOk result (λ s. given_of s.kernel ≡ encoder.pool.clauses) }
    ensures variables { IfOk result (λ s. s.vars ≡ encoder.next) }
    ensures decides { IfOk result (λ s. s.codes ≡ codes) }
{
    let Encoded {
        pool,
        vars,
        gates: _,
    } = encoder.into_parts();
    let kernel = Kernel::of(alloc, pool);
    let solver = Solver::new(alloc, kernel, vars, codes)?;
    Ok(solver)
}

/// Looks for what satisfies the solver's clauses with each of these literals true.
pub(crate) fn search_guarded(
    solver: &mut Solver,
    lits: &[Lit],
    budget: u32,
) -> Result<Answer, Memory>
    requires below { AreLiterals lits.now (2 * solver.old.vars) }
    requires consistent { IsConsistent lits.now }
    requires some { 0 < budget }
    requires most { budget ≤ MOST_BUDGET }
    ensures sets { (codes n : ℕ) (test : List Bool → Bool) → GuardedSets codes n test solver.old
        → GuardedSets codes n test solver.new }
    ensures answer { (codes n : ℕ) (test : List Bool → Bool) → GuardedSets codes n test solver.old
        → AreLiterals lits.now (2 * n)
        → IfOk result (IsGuardedAnswer codes n test solver.new lits.now budget) }
{
    let answer = solver.solve(lits, budget)?;
    Ok(read_answer(solver, lits, budget, answer))
}

// The solver's answer, with what it says.
fn read_answer(solver: &Solver, lits: &[Lit], budget: u32, answer: Answer) -> Answer
    requires right { IsRight solver.now lits.now budget answer }
    ensures { (codes n : ℕ) (test : List Bool → Bool) → GuardedSets codes n test solver.now
        → AreLiterals lits.now (2 * n) → IsGuardedAnswer codes n test solver.now lits.now budget result }
{
    match answer {
        Answer::Set(set) => Answer::Set(set),
        Answer::Closed(at) => {
            solver.kernel().pool();
            Answer::Closed(at)
        }
        Answer::Spent(learnt) => Answer::Spent(learnt),
    }
}
