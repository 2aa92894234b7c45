//! Steps of a resolution down the trail.
ghost use Rattle.std.specs.Prelude.{◌≡◌, ◌*◌, [], length, slice_index_or, OnOk};
ghost use Rattle.solver.specs.Marks.{IsChain, IsResolvable, IsResolvedAt};

use crate::resolution::Resolution;
use clause_pool::{Lit, Pool, Ref};
use pb_base::Memory;
use propagate::Engine;

/// A false literal that is marked and has a reason, by its place of the trail.
#[derive(Clone, Copy)]
pub(crate) struct Resolvable {
    pub(crate) place: usize,
    pub(crate) reason: Ref,
}

/// Resolves a false literal away by its reason, whose literals are given.
#[tactic(auto, using(crate::proofs::MarkLaws::resolved_at, crate::proofs::MarkLaws::reason_attached))]
pub(crate) fn resolve_at(
    engine: &Engine,
    pool: &Pool,
    resolution: &mut Resolution,
    at: Resolvable,
    reason: &[Lit],
) -> Result<(), Memory>
    requires attached { pool.now.clauses ≡ engine.now.clauses }
    requires resolvable { IsResolvable engine.now resolution.old.marks.items at }
    requires reason { reason.now ≡ slice_index_or pool.now.clauses at.reason [] }
    requires chain { IsChain pool.now.clauses resolution.old }
    requires table { length resolution.old.marks.items ≡ 2 * engine.now.vars }
    ensures chain { OnOk result (IsChain pool.now.clauses resolution.new) }
    ensures resolved { OnOk result
        (IsResolvedAt engine.now at.place resolution.old.marks.items resolution.new.marks.items) }
    ensures table { length resolution.new.marks.items ≡ 2 * engine.now.vars }
{
    let lit = engine.trail()[at.place].not();
    resolution.resolve(pool, lit, at.reason, reason)?;
    Ok(())
}
