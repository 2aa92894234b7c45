//! What an answer of a solver can't be.
ghost use Rattle.std.specs.Prelude.{◌*◌, ◌<◌, ◌≤◌, IfOk};
ghost use Rattle.pb_base.specs.declared.limits.TheConstants.{MOST_BUDGET};
ghost use Rattle.chains.specs.Growth.{given_of};
ghost use Rattle.propagate.specs.Quiet.{IsConsistent};
ghost use Rattle.propagate.specs.Trail.{AreLiterals};
ghost use Rattle.logic_guards.specs.Solving.{HasLearnt, HoldsAssumed, IsBelow, IsRefuted};

use clause_pool::Lit;
use pb_base::Memory;
use solver::{Answer, Solver};

/// A question is left only when as many clauses were learnt as the budget allows: no clause counts twice. A run would leave open what
/// half of its budget decides.
pub fn no_search_is_left_early(
    solver: &mut Solver,
    assumed: &[Lit],
    budget: u32,
) -> Result<Answer, Memory>
    requires below { AreLiterals assumed.now (2 * solver.old.vars) }
    requires consistent { IsConsistent assumed.now }
    requires some { 0 < budget }
    requires most { budget ≤ MOST_BUDGET }
    ensures { IfOk result (HasLearnt budget) }
{
    solver.solve(assumed, budget)
}

/// Where a clause is told, nothing satisfies the given clauses with each assumption true: no literal is lacking in it. A run would
/// say that there is no car where there is one.
#[tactic(auto, using(crate::proofs::SolvingLaws::refuted))]
pub fn no_core_lacks_an_assumption(
    solver: &mut Solver,
    assumed: &[Lit],
    budget: u32,
) -> Result<Answer, Memory>
    requires below { AreLiterals assumed.now (2 * solver.old.vars) }
    requires consistent { IsConsistent assumed.now }
    requires some { 0 < budget }
    requires most { budget ≤ MOST_BUDGET }
    ensures { IfOk result (IsRefuted (given_of solver.old.kernel) assumed.now) }
{
    let answer = solver.solve(assumed, budget)?;
    solver.kernel().pool();
    Ok(answer)
}

/// What is learnt speaks of the solver's own variables alone. A reader of the learnt clauses would come to a variable that stands for
/// nothing.
#[tactic(auto, using(crate::proofs::SolvingLaws::below))]
pub fn learnt_clauses_have_no_foreign_variable(
    solver: &mut Solver,
    assumed: &[Lit],
    budget: u32,
) -> Result<Answer, Memory>
    requires below { AreLiterals assumed.now (2 * solver.old.vars) }
    requires consistent { IsConsistent assumed.now }
    requires some { 0 < budget }
    requires most { budget ≤ MOST_BUDGET }
    ensures { IfOk result (IsBelow solver.old.vars) }
{
    solver.solve(assumed, budget)
}

/// A set that is found has each code that is assumed, and none that is assumed to be absent. A run would show a car without the codes
/// that were asked for.
#[tactic(auto, using(crate::proofs::SolvingLaws::holds_assumed))]
pub fn no_assumption_is_dropped(
    solver: &mut Solver,
    assumed: &[Lit],
    budget: u32,
) -> Result<Answer, Memory>
    requires below { AreLiterals assumed.now (2 * solver.old.vars) }
    requires consistent { IsConsistent assumed.now }
    requires some { 0 < budget }
    requires most { budget ≤ MOST_BUDGET }
    ensures { IfOk result (HoldsAssumed solver.old.codes assumed.now) }
{
    solver.solve(assumed, budget)
}
