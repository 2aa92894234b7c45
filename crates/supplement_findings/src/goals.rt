//! The clauses of goals.
ghost use Rattle.std.specs.Prelude.{◌≡◌, ◌+◌, ◌^◌, ◌<◌, ◌++◌, ◌∷◌, IfOk, OnOk, length, map};
ghost use Rattle.clause_pool.specs.Literal.{complement};
ghost use Rattle.supplement_findings.specs.Answering.{goals_of};
ghost use Rattle.supplement_findings.specs.Clauses.{goal_clauses, all_goal_clauses};

use crate::lits::QuestionLits;
use crate::question::SupplementQuestion;
use clause_pool::{Lit, Pool};
use pb_base::Memory;
use std::alloc::Global;

/// The goals of questions, of which the first has this variable.
pub(crate) fn goals_from(
    alloc: Global,
    first_goal: u32,
    questions: &[SupplementQuestion],
) -> Result<Vec<Lit>, Memory>
    requires { first_goal + length questions.now < 2 ^ 32 }
    ensures { IfOk result (λ goals. goals.items ≡ goals_of first_goal questions.now) }
{
    let mut goals = Vec::new(alloc);
    for (place, _) in questions.iter().enumerate() {
        goals.push(Lit::new(first_goal + place as u32, true))?;
    }
    Ok(goals)
}

/// The clauses of goals, of which the first has this variable.
pub(crate) fn add_goals(
    alloc: Global,
    pool: &mut Pool,
    first_goal: u32,
    all: &[QuestionLits],
) -> Result<(), Memory>
    requires { first_goal + length all.now < 2 ^ 32 }
    ensures { OnOk result (pool.new.clauses ≡ pool.old.clauses ++ all_goal_clauses first_goal all.now) }
{
    for (place, lits) in all.iter().enumerate() {
        add_goal(alloc, pool, first_goal + place as u32, lits)?;
    }
    Ok(())
}

/// The clauses of a goal: where the variable is true, it is met.
pub(crate) fn add_goal(
    alloc: Global,
    pool: &mut Pool,
    goal: u32,
    lits: &QuestionLits,
) -> Result<(), Memory>
    ensures { OnOk result (pool.new.clauses ≡ pool.old.clauses ++ goal_clauses goal lits.now) }
{
    let unless = Lit::new(goal, false);
    match lits {
        QuestionLits::BreaksLits {
            rule,
            added,
            afterwards,
        } => {
            pool.add(&[unless, *rule])?;
            pool.add(&[unless, Lit::new(*added, false)])?;
            let unmet = complements(alloc, unless, afterwards.as_slice())?;
            pool.add(&unmet)?;
        }
        QuestionLits::SwapsLits {
            first,
            first_added,
            second,
            second_added,
            second_afterwards,
            first_afterwards,
        } => {
            pool.add(&[unless, *first])?;
            pool.add(&[unless, Lit::new(*first_added, false)])?;
            pool.add(&[unless, *second])?;
            pool.add(&[unless, Lit::new(*second_added, false)])?;
            pool.add(&[unless, second_afterwards.not(), first_afterwards.not()])?;
        }
    }
    Ok(())
}

// A literal, and the complements of others behind it.
fn complements(alloc: Global, first: Lit, lits: &[Lit]) -> Result<Vec<Lit>, Memory>
    ensures { IfOk result (λ all. all.items ≡ first ∷ map complement lits.now) }
{
    let mut all = Vec::new(alloc);
    all.push(first)?;
    for lit in lits {
        all.push(lit.not())?;
    }
    Ok(all)
}
