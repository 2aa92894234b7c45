//! Back to the level at which a learnt clause forces its literal.
ghost use Rattle.std.specs.Prelude.{◌≡◌, ℕ, List, ◌*◌, ◌-◌, ◌<◌, length, take, OnOk, true};
ghost use Rattle.std.specs.Bool.{OnTrue};
ghost use Rattle.clause_pool.specs.Literal.{complement};
ghost use Rattle.clause_pool.specs.Clause.{has, AreBelow};
ghost use Rattle.propagate.specs.Trail.{IsTrail, level, upto, IsFalse, OthersFalse};
ghost use Rattle.solver.specs.Marks.{start_of};
ghost use Rattle.solver.specs.Search.{IsSettled, IsAssumed, IsNext, IsAsserting, IsJump, next_of};

use crate::order::Order;
use clause_pool::{Lit, Pool};
use pb_base::Memory;
use propagate::Engine;

// Whether a false literal was false at this level already.
#[inline(always)]
fn was_false(engine: &Engine, lit: Lit, level: u32) -> bool
    requires below { lit < 2 * engine.now.vars }
    requires is_false { IsFalse engine.now.lits lit }
    requires trail { IsTrail engine.now }
    ensures { OnTrue result (IsFalse (upto engine.now level) lit) }
{
    let Some(place) = engine.place_of(lit.var()) else {
        return false;
    };
    if place >= engine.end_of(level) {
        return false;
    }
    true
}

// The first level at which all literals of a clause but one are false.
fn jump_level(engine: &Engine, lits: &[Lit], forced: Lit) -> u32
    requires level { 0 < level engine.now }
    requires below { (l : ℕ) → has lits.now l ≡ true → l < 2 * engine.now.vars }
    requires others_false { OthersFalse (take (start_of engine.now) engine.now.lits) lits.now forced }
    requires trail { IsTrail engine.now }
    ensures { IsJump engine.now lits.now forced result }
{
    let mut jump: u32 = 0;
    for lit in lits {
        if *lit == forced {
            continue;
        }
        if was_false(engine, *lit, jump) {
            continue;
        }
        let Some(level) = engine.level_of(lit.var()) else {
            unreachable!();
        };
        if jump < level {
            jump = level;
        }
    }
    jump
}

/// Goes back to where the next clause of the pool forces its literal, whose complement stands at this place of
/// the trail, and attaches the clause there.
pub(crate) fn backjump(
    engine: &mut Engine,
    pool: &Pool,
    order: &mut Order,
    place: usize,
) -> Result<(), Memory>
    requires level { 0 < level engine.old }
    requires one_more { IsNext pool.now.clauses engine.old }
    requires below { AreBelow (2 * engine.old.vars) pool.now.clauses }
    requires settled { IsSettled engine.old }
    requires asserting { IsAsserting engine.old (next_of pool.now.clauses engine.old) place }
    ensures attached { OnOk result (engine.new.clauses ≡ pool.now.clauses) }
    ensures kept { engine.new.clauses ≡ take (length engine.new.clauses) pool.now.clauses }
    ensures vars { engine.new.vars ≡ engine.old.vars }
    ensures settled { OnOk result (IsSettled engine.new) }
    ensures assumed { OnOk result ((assumptions : List ℕ) (depth : ℕ)
        → IsAssumed assumptions depth engine.old → IsAssumed assumptions depth engine.new) }
{
    let at = engine.clauses();
    let forced = engine.trail()[place].not();
    let level = jump_level(engine, pool.lits(at), forced);
    let end = engine.end_of(level);
    order.put_back(engine.trail(), end);
    engine.back_to(level);
    engine.trail();
    engine.attach(pool, at)?;
    engine.trail();
    Ok(())
}
