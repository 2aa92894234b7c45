//! Down the levels, until a clause is false or every variable has a value.
ghost use Rattle.std.specs.Prelude.{◌≡◌, ℕ, List, ◌<◌, ◌≤◌, IfOk, IfSome, OnOk, Ok, None, true, false};
ghost use Rattle.propagate.specs.Quiet.{Quiet};
ghost use Rattle.propagate.specs.Trail.{level};
ghost use Rattle.solver.specs.Search.{IsSettled, IsAssumed, IsFalseAt, IsFull, left_of};

use crate::order::{Order, pick};
use clause_pool::{Pool, Ref};
use pb_base::Memory;
use propagate::Engine;

// Assumes the next literal. False where every variable has a value.
fn decide(engine: &mut Engine, order: &mut Order) -> bool
    requires quiet { Quiet engine.old.clauses engine.old.lits }
    requires settled { IsSettled engine.old }
    ensures clauses { engine.new.clauses ≡ engine.old.clauses }
    ensures vars { engine.new.vars ≡ engine.old.vars }
    ensures settled { IsSettled engine.new }
    ensures assumed { (assumptions : List ℕ) (depth : ℕ) → depth ≤ level engine.old
        → IsAssumed assumptions depth engine.old → IsAssumed assumptions depth engine.new }
    ensures higher { level engine.old ≤ level engine.new }
    ensures fewer { result ≡ true → left_of engine.new < left_of engine.old }
    ensures full { result ≡ false → IsFull engine.new }
{
    engine.trail();
    let Some(lit) = pick(order, engine) else {
        return false;
    };
    engine.assume(lit);
    true
}

/// Propagates and decides until a clause is false, or every variable has a value.
pub(crate) fn descend(
    engine: &mut Engine,
    pool: &Pool,
    order: &mut Order,
) -> Result<Option<Ref>, Memory>
    requires attached { pool.now.clauses ≡ engine.old.clauses }
    requires settled { IsSettled engine.old }
    ensures clauses { engine.new.clauses ≡ engine.old.clauses }
    ensures vars { engine.new.vars ≡ engine.old.vars }
    ensures settled { OnOk result (IsSettled engine.new) }
    ensures assumed { OnOk result ((assumptions : List ℕ) (depth : ℕ) → depth ≤ level engine.old
        → IsAssumed assumptions depth engine.old → IsAssumed assumptions depth engine.new) }
    ensures higher { level engine.old ≤ level engine.new }
    ensures conflict { IfOk result (λ found. IfSome found (IsFalseAt engine.new)) }
    ensures full { result ≡ Ok None → IsFull engine.new }
{
    loop {
        engine.trail();
        let found = engine.propagate(pool)?;
        engine.trail();
        if found.is_some() {
            return Ok(found);
        }
        if !decide(engine, order) {
            return Ok(None);
        }
    }
}
