//! The run over a resolution chain.
ghost use Rattle.std.specs.Prelude.{slice_get};
ghost use Rattle.pb_base.specs.Answers.{Leaves};
ghost use Rattle.clause_pool.specs.Chain.{chain, step_on};

use crate::chain::{Pair, StepFault};
use crate::pool::{Pool, Ref};
use crate::running::Running;
use pb_base::Fail;

// Makes of the running clause what the pair at this place does.
fn step(pool: &Pool, place: usize, pair: Pair, running: &mut Running) -> Result<(), Fail<StepFault>>
    ensures { Leaves result running.new
        (step_on running.old place pair.lit (slice_get pool.now.clauses pair.with)) }
{
    if pair.with >= pool.len() {
        return Err(Fail::Refused(StepFault::NoSuchStep(place)));
    }
    if !running.has(pair.lit) {
        return Err(Fail::Refused(StepFault::NoPivot(place)));
    }
    let found = running.resolve(pair.lit, pool.lits(pair.with))?;
    if !found {
        return Err(Fail::Refused(StepFault::NoPivot(place)));
    }
    Ok(())
}

/// Makes the resolvent of a chain.
pub(crate) fn run_chain(
    pool: &Pool,
    start: Ref,
    pairs: &[Pair],
    running: &mut Running,
) -> Result<(), Fail<StepFault>>
    ensures { Leaves result running.new (chain pool.now.clauses start pairs.now) }
{
    if start >= pool.len() {
        return Err(Fail::Refused(StepFault::NoSuchStep(0)));
    }
    running.begin(pool.lits(start))?;
    for (k, pair) in pairs.iter().enumerate() {
        step(pool, k + 1, *pair, running)?;
    }
    Ok(())
}
