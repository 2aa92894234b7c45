//! A learnt clause is made shorter: literals go that the others make needless.
ghost use Rattle.std.specs.Prelude.{◌≡◌, ◌*◌, ◌<◌, length, OnOk};
ghost use Rattle.propagate.specs.Trail.{level};
ghost use Rattle.solver.specs.Marks.{IsChain, IsUip};

use crate::conflict::resolve_at;
use crate::resolution::Resolution;
use crate::way::{Way, next_needless};
use clause_pool::Pool;
use pb_base::Memory;
use propagate::Engine;

/// Resolves needless literals of the levels before the current one away, by the way that led to the clause.
pub(crate) fn minimize(
    engine: &Engine,
    pool: &Pool,
    resolution: &mut Resolution,
    way: &mut Way,
    uip: usize,
) -> Result<(), Memory>
    requires attached { pool.now.clauses ≡ engine.now.clauses }
    requires level { 0 < level engine.now }
    requires chain { IsChain pool.now.clauses resolution.old }
    requires table { length resolution.old.marks.items ≡ 2 * engine.now.vars }
    requires uip { IsUip engine.now resolution.old.marks.items uip }
    ensures chain { OnOk result (IsChain pool.now.clauses resolution.new) }
    ensures uip { OnOk result (IsUip engine.now resolution.new.marks.items uip) }
    ensures table { length resolution.new.marks.items ≡ 2 * engine.now.vars }
{
    engine.trail();
    let fixed = engine.end_of(0);
    let start = engine.end_of(engine.level() - 1);
    way.fixed.sort_unstable();
    way.between.sort_unstable();
    for _ in 0..start {
        let Some(at) = next_needless(engine, pool, &resolution.marks, way, start) else {
            return Ok(());
        };
        let reason = pool.lits(at.reason);
        // Above level 0 all others of the reason are marked, so nothing comes ahead.
        if at.place < fixed && reason.len() > 1 {
            way.look_ahead(engine, &resolution.marks, reason, at.place);
        }
        resolve_at(engine, pool, resolution, at, reason)?;
    }
    Ok(())
}
