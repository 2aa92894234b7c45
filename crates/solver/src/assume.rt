//! The assumptions of a question, each at a level of its own.
ghost use Rattle.std.specs.Prelude.{◌≡◌, ℕ, ◌*◌, ◌<◌, ◌≤◌, IfOk, IfSome, OnOk, Ok, None, true, false};
ghost use Rattle.clause_pool.specs.Literal.{complement};
ghost use Rattle.clause_pool.specs.Clause.{has};
ghost use Rattle.propagate.specs.Quiet.{Quiet, IsConsistent};
ghost use Rattle.propagate.specs.Trail.{AreLiterals, level};
ghost use Rattle.solver.specs.Answer.{AreHeld};
ghost use Rattle.solver.specs.Search.{IsSettled, IsAssumed, AreOpened, IsClosing};

use clause_pool::{Lit, Pool, Ref};
use pb_base::Memory;
use propagate::Engine;

// Propagates where only assumptions were assumed, and gives the clause that is false then, if one is.
fn propagate_assumed(
    engine: &mut Engine,
    pool: &Pool,
    assumptions: &[Lit],
) -> Result<Option<Ref>, Memory>
    requires attached { pool.now.clauses ≡ engine.old.clauses }
    requires settled { IsSettled engine.old }
    requires opened { AreOpened assumptions.now engine.old }
    ensures clauses { engine.new.clauses ≡ engine.old.clauses }
    ensures vars { engine.new.vars ≡ engine.old.vars }
    ensures settled { OnOk result (IsSettled engine.new) }
    ensures opened { OnOk result (AreOpened assumptions.now engine.new) }
    ensures kept { OnOk result (AreHeld engine.old.lits engine.new.lits) }
    ensures closing { IfOk result (λ found. IfSome found (IsClosing engine.new assumptions.now)) }
    ensures quiet { result ≡ Ok None → Quiet engine.new.clauses engine.new.lits }
{
    engine.trail();
    let found = engine.propagate(pool)?;
    engine.trail();
    Ok(found)
}

// Assumes an assumption that has no value, and propagates it.
fn assume_open(
    engine: &mut Engine,
    pool: &Pool,
    assumptions: &[Lit],
    lit: Lit,
) -> Result<Option<Ref>, Memory>
    requires attached { pool.now.clauses ≡ engine.old.clauses }
    requires below { lit < 2 * engine.old.vars }
    requires one { has assumptions.now lit ≡ true }
    requires not_true { has engine.old.lits lit ≡ false }
    requires not_false { has engine.old.lits (complement lit) ≡ false }
    requires quiet { Quiet engine.old.clauses engine.old.lits }
    requires settled { IsSettled engine.old }
    requires opened { AreOpened assumptions.now engine.old }
    ensures clauses { engine.new.clauses ≡ engine.old.clauses }
    ensures vars { engine.new.vars ≡ engine.old.vars }
    ensures settled { OnOk result (IsSettled engine.new) }
    ensures opened { OnOk result (AreOpened assumptions.now engine.new) }
    ensures kept { OnOk result (AreHeld engine.old.lits engine.new.lits) }
    ensures closing { IfOk result (λ found. IfSome found (IsClosing engine.new assumptions.now)) }
    ensures quiet { result ≡ Ok None → Quiet engine.new.clauses engine.new.lits }
    ensures held { OnOk result (has engine.new.lits lit ≡ true) }
{
    engine.trail();
    engine.assume(lit);
    let found = propagate_assumed(engine, pool, assumptions)?;
    Ok(found)
}

// Assumes an assumption unless it is true, and propagates it. The clause that shows why it can't be, if it can't.
fn assume_one(
    engine: &mut Engine,
    pool: &Pool,
    assumptions: &[Lit],
    lit: Lit,
) -> Result<Option<Ref>, Memory>
    requires attached { pool.now.clauses ≡ engine.old.clauses }
    requires below { lit < 2 * engine.old.vars }
    requires one { has assumptions.now lit ≡ true }
    requires consistent { IsConsistent assumptions.now }
    requires quiet { Quiet engine.old.clauses engine.old.lits }
    requires settled { IsSettled engine.old }
    requires opened { AreOpened assumptions.now engine.old }
    ensures clauses { engine.new.clauses ≡ engine.old.clauses }
    ensures vars { engine.new.vars ≡ engine.old.vars }
    ensures settled { OnOk result (IsSettled engine.new) }
    ensures opened { OnOk result (AreOpened assumptions.now engine.new) }
    ensures kept { OnOk result (AreHeld engine.old.lits engine.new.lits) }
    ensures closing { IfOk result (λ found. IfSome found (IsClosing engine.new assumptions.now)) }
    ensures quiet { result ≡ Ok None → Quiet engine.new.clauses engine.new.lits }
    ensures held { result ≡ Ok None → has engine.new.lits lit ≡ true }
{
    engine.trail();
    match engine.value(lit) {
        None => assume_open(engine, pool, assumptions, lit),
        Some(true) => Ok(None),
        Some(false) => {
            let Some(reason) = engine.reason(lit.var()) else {
                unreachable!();
            };
            Ok(Some(reason))
        }
    }
}

/// Assumes each of these literals that isn't true, one after the other, and propagates it. The clause that shows why they
/// can't hold together, if they can't.
pub(crate) fn assume_each(
    engine: &mut Engine,
    pool: &Pool,
    assumptions: &[Lit],
) -> Result<Option<Ref>, Memory>
    requires attached { pool.now.clauses ≡ engine.old.clauses }
    requires below { AreLiterals assumptions.now (2 * engine.old.vars) }
    requires consistent { IsConsistent assumptions.now }
    requires settled { IsSettled engine.old }
    requires opened { AreOpened assumptions.now engine.old }
    ensures clauses { engine.new.clauses ≡ engine.old.clauses }
    ensures vars { engine.new.vars ≡ engine.old.vars }
    ensures settled { OnOk result (IsSettled engine.new) }
    ensures opened { OnOk result (AreOpened assumptions.now engine.new) }
    ensures closing { IfOk result (λ found. IfSome found (IsClosing engine.new assumptions.now)) }
    ensures held { result ≡ Ok None → AreHeld assumptions.now engine.new.lits }
{
    let found = propagate_assumed(engine, pool, assumptions)?;
    if found.is_some() {
        return Ok(found);
    }
    for lit in assumptions {
        let found = assume_one(engine, pool, assumptions, *lit)?;
        if found.is_some() {
            return Ok(found);
        }
    }
    Ok(None)
}

/// Assumes them where the current level is below the level `depth`, from which on all of them hold: so it is at first,
/// and after a jump back behind the assumptions.
pub(crate) fn hold(
    engine: &mut Engine,
    pool: &Pool,
    assumptions: &[Lit],
    depth: &mut u32,
) -> Result<Option<Ref>, Memory>
    requires attached { pool.now.clauses ≡ engine.old.clauses }
    requires below { AreLiterals assumptions.now (2 * engine.old.vars) }
    requires consistent { IsConsistent assumptions.now }
    requires settled { IsSettled engine.old }
    requires assumed { IsAssumed assumptions.now depth.old engine.old }
    ensures clauses { engine.new.clauses ≡ engine.old.clauses }
    ensures vars { engine.new.vars ≡ engine.old.vars }
    ensures settled { OnOk result (IsSettled engine.new) }
    ensures closing { IfOk result (λ found. IfSome found (IsClosing engine.new assumptions.now)) }
    ensures assumed { result ≡ Ok None → IsAssumed assumptions.now depth.new engine.new }
    ensures deep { result ≡ Ok None → depth.new ≤ level engine.new }
{
    if engine.level() >= *depth {
        return Ok(None);
    }
    let found = assume_each(engine, pool, assumptions)?;
    *depth = engine.level();
    Ok(found)
}
