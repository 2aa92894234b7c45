//! Searches for sets that a solver's clauses are satisfied over.
ghost use Rattle.std.specs.Prelude.{◌≡◌, ◌*◌, ◌<◌, ◌≤◌, ℕ, Bool, List, IfOk};
ghost use Rattle.pb_base.specs.declared.limits.TheConstants.{MOST_BUDGET};
ghost use Rattle.clause_pool.specs.Clause.{AreBelow};
ghost use Rattle.propagate.specs.Trail.{AreLiterals};
ghost use Rattle.propagate.specs.Quiet.{IsConsistent};
ghost use Rattle.solver.specs.Solver.{IsRight, Onwards};
ghost use Rattle.clausify.specs.Items.{Item};
ghost use Rattle.item_search.specs.Search.{IsMadeOf, CodesSets, IsEncoded, IsOver, CodesItems, IsAnswered, IsOutcome};

use crate::outcome::Outcome;
use clause_pool::{Kernel, Lit};
use clausify::{Encoded, Encoder};
use pb_base::Memory;
use solver::{Answer, Solver};
use std::alloc::Global;

/// A solver over the clauses that an encoder made. Where they are those of some items, it is over these items.
pub fn solver_over(alloc: Global, encoder: Encoder) -> Result<Solver, Memory>
    requires below { AreBelow (2 * encoder.next) encoder.pool.clauses }
    requires codes { encoder.truth ≤ encoder.next }
    ensures made { IfOk result (IsMadeOf encoder) }
    ensures over { (is : List Item) → IsEncoded is encoder → IfOk result (IsOver encoder.truth is) }
{
    let codes = encoder.truth;
    let Encoded {
        pool,
        vars,
        gates: _,
    } = encoder.into_parts();
    let kernel = Kernel::of(alloc, pool);
    let solver = Solver::new(alloc, kernel, vars, codes)?;
    Ok(solver)
}

/// Looks for a set of codes that begins what satisfies a solver's clauses, as one that meets its items, and of which each of these
/// literals is true. They are literals of codes, and may be none. A search that learns as many clauses as the budget allows is left.
/// After want of memory the same and other sets may be looked for.
#[tactic(auto, using(crate::proofs::SearchLaws::over_onwards, crate::proofs::SearchLaws::codes_onwards))]
pub fn search(solver: &mut Solver, lits: &[Lit], budget: u32) -> Result<Outcome, Memory>
    requires within { solver.old.codes ≤ solver.old.vars }
    requires below { AreLiterals lits.now (2 * solver.old.codes) }
    requires consistent { IsConsistent lits.now }
    requires some { 0 < budget }
    requires most { budget ≤ MOST_BUDGET }
    ensures onwards { Onwards solver.old solver.new }
    ensures over { (n : ℕ) (is : List Item) → IsOver n is solver.old → IsOver n is solver.new }
    ensures codes { (n : ℕ) (test : List Bool → Bool) → CodesSets n test solver.old
        → CodesSets n test solver.new }
    ensures answered { (n : ℕ) (test : List Bool → Bool) → CodesSets n test solver.old
        → IfOk result (IsAnswered n test solver.new lits.now budget) }
    ensures outcome { (n : ℕ) (is : List Item) (test : List Bool → Bool) → IsOver n is solver.old
        → CodesItems n is test → IfOk result (IsOutcome n is test lits.now budget) }
{
    let answer = solver.solve(lits, budget)?;
    Ok(read_answer(solver, lits, budget, answer))
}

// What comes of the search by the solver's answer.
fn read_answer(solver: &Solver, lits: &[Lit], budget: u32, answer: Answer) -> Outcome
    requires below { AreLiterals lits.now (2 * solver.now.codes) }
    requires right { IsRight solver.now lits.now budget answer }
    ensures { (n : ℕ) (test : List Bool → Bool) → CodesSets n test solver.now
        → IsAnswered n test solver.now lits.now budget result }
{
    match answer {
        Answer::Set(set) => Outcome::Shown(set),
        Answer::Closed(at) => {
            solver.kernel().pool();
            Outcome::NotShown(at)
        }
        Answer::Spent(learnt) => Outcome::Left(learnt),
    }
}
