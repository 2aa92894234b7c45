//! The search for an answer to one question.
ghost use Rattle.std.specs.Prelude.{◌≡◌, ℕ, List, ◌+◌, ◌*◌, ◌<◌, ◌≤◌, [], length, slice_index_or, IfOk, OnOk, Ok};
ghost use Rattle.propagate.specs.Quiet.{IsConsistent};
ghost use Rattle.propagate.specs.Trail.{AreLiterals, level};
ghost use Rattle.solver.specs.Answer.{AreHeld, IsCore, IsNew};
ghost use Rattle.solver.specs.Ending.{IsFound};
ghost use Rattle.solver.specs.Marks.{AreClear};
ghost use Rattle.solver.specs.Search.{IsReady, IsKept, IsSettled, IsAssumed, IsLearning, IsFull, AllNew};
ghost use Rattle.chains.specs.Growth.{Extends};

use crate::analyze::analyze;
use crate::assume::hold;
use crate::backjump::backjump;
use crate::closing::close;
use crate::decide::descend;
use crate::order::Order;
use crate::resolution::Resolution;
use crate::way::Way;
use clause_pool::{Kernel, Lit, Pool, Ref};
use pb_base::Memory;
use propagate::Engine;

/// How a search ends.
pub(crate) enum Ending {
    /// Every variable has a value, and no clause is false.
    Full,
    /// The clause at this place has no literal but complements of assumptions.
    Closed(Ref),
    /// So many clauses were learnt as were allowed.
    Spent,
}

/// What a search comes to next.
pub(crate) enum Found {
    /// Every variable has a value, and no clause is false.
    Full,
    /// The clause at this place shows that the assumptions can't hold together.
    Closing(Ref),
    /// The clause at this place is false, and something is to be learnt from it.
    Learning(Ref),
}

// Goes down the levels, those of the assumptions first. From the level `depth` on all of them hold.
fn find(
    engine: &mut Engine,
    pool: &Pool,
    order: &mut Order,
    assumptions: &[Lit],
    depth: &mut u32,
) -> Result<Found, Memory>
    requires attached { pool.now.clauses ≡ engine.old.clauses }
    requires below { AreLiterals assumptions.now (2 * engine.old.vars) }
    requires consistent { IsConsistent assumptions.now }
    requires settled { IsSettled engine.old }
    requires assumed { IsAssumed assumptions.now depth.old engine.old }
    ensures clauses { engine.new.clauses ≡ engine.old.clauses }
    ensures vars { engine.new.vars ≡ engine.old.vars }
    ensures found { IfOk result (IsFound engine.new assumptions.now depth.new) }
{
    if let Some(at) = hold(engine, pool, assumptions, depth)? {
        return Ok(Found::Closing(at));
    }
    let Some(at) = descend(engine, pool, order)? else {
        return Ok(Found::Full);
    };
    if engine.level() <= *depth {
        return Ok(Found::Closing(at));
    }
    Ok(Found::Learning(at))
}

// Learns a clause from a conflict, and goes back to where it forces its literal.
fn go_on(
    kernel: &mut Kernel,
    engine: &mut Engine,
    resolution: &mut Resolution,
    way: &mut Way,
    order: &mut Order,
    at: Ref,
) -> Result<(), Memory>
    requires ready { IsReady kernel.old.clauses engine.old resolution.old.marks.items }
    requires level { 0 < level engine.old }
    requires settled { IsSettled engine.old }
    requires conflict { IsLearning engine.old at }
    ensures extends { Extends kernel.old kernel.new }
    ensures kept { IsKept kernel.new.clauses engine.new resolution.new.marks.items }
    ensures vars { engine.new.vars ≡ engine.old.vars }
    ensures ready { OnOk result (IsReady kernel.new.clauses engine.new resolution.new.marks.items) }
    ensures one_more { OnOk result (length kernel.new.clauses ≡ length kernel.old.clauses + 1) }
    ensures fresh { OnOk result ((assumptions : List ℕ) (depth : ℕ) → depth < level engine.old
        → IsAssumed assumptions depth engine.old → IsNew kernel.old.clauses assumptions
        (slice_index_or kernel.new.clauses (length kernel.old.clauses) [])) }
    ensures settled { OnOk result (IsSettled engine.new) }
    ensures assumed { OnOk result ((assumptions : List ℕ) (depth : ℕ)
        → IsAssumed assumptions depth engine.old → IsAssumed assumptions depth engine.new) }
{
    let place = analyze(kernel, engine, resolution, way, order, at)?;
    backjump(engine, kernel.pool(), order, place)?;
    Ok(())
}

/// Searches until the question is answered or so many clauses are learnt as the budget allows.
pub(crate) fn run(
    kernel: &mut Kernel,
    engine: &mut Engine,
    resolution: &mut Resolution,
    way: &mut Way,
    order: &mut Order,
    assumptions: &[Lit],
    budget: u32,
) -> Result<Ending, Memory>
    requires ready { IsReady kernel.old.clauses engine.old resolution.old.marks.items }
    requires settled { IsSettled engine.old }
    requires assumed { IsAssumed assumptions.now 1 engine.old }
    requires below { AreLiterals assumptions.now (2 * engine.old.vars) }
    requires consistent { IsConsistent assumptions.now }
    ensures extends { Extends kernel.old kernel.new }
    ensures kept { IsKept kernel.new.clauses engine.new resolution.new.marks.items }
    ensures vars { engine.new.vars ≡ engine.old.vars }
    ensures clear { OnOk result (AreClear resolution.new.marks.items) }
    ensures core { (at : ℕ) → result ≡ Ok (Ending.Closed at) → IsCore kernel.new assumptions.now at }
    ensures full { result ≡ Ok Ending.Full → (engine.new.clauses ≡ kernel.new.clauses)
        × IsFull engine.new × AreHeld assumptions.now engine.new.lits }
    ensures count { result ≡ Ok Ending.Spent
        → length kernel.new.clauses ≡ length kernel.old.clauses + budget }
    ensures fresh { result ≡ Ok Ending.Spent
        → AllNew assumptions.now (length kernel.old.clauses) kernel.new.clauses }
{
    let mut learnt = 0;
    // At level 0 none of the assumptions was assumed.
    let mut depth = 1;
    while learnt < budget {
        let at = match find(engine, kernel.pool(), order, assumptions, &mut depth)? {
            Found::Full => return Ok(Ending::Full),
            Found::Closing(at) => {
                let literals = &mut way.literals;
                let closed = close(kernel, engine, resolution, literals, assumptions, at)?;
                return Ok(Ending::Closed(closed));
            }
            Found::Learning(at) => at,
        };
        go_on(kernel, engine, resolution, way, order, at)?;
        learnt += 1;
    }
    Ok(Ending::Spent)
}
