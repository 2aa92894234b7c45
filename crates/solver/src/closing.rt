//! From a conflict that assumptions alone lead to, a clause of their complements.
ghost use Rattle.std.specs.Prelude.{◌≡◌, ℕ, ◌*◌, ◌≤◌, [], length, Some, IfOk, IfSome, IfNone, OnOk};
ghost use Rattle.clause_pool.specs.Clause.{has};
ghost use Rattle.clause_pool.specs.Marks.{AreTouched};
ghost use Rattle.solver.specs.Answer.{IsCore};
ghost use Rattle.solver.specs.Marks.{IsChain, IsMarkedAt, IsTop, NoneMarked, AreClear, AreFalseOrBlamed, AreLiteralsAt};
ghost use Rattle.solver.specs.Search.{IsReady, IsKept, AreOpened, IsClosing};
ghost use Rattle.chains.specs.Growth.{Extends};

use crate::analyze::append;
use crate::conflict::{Resolvable, resolve_at};
use crate::marks::{last_marked, unmark};
use crate::resolution::Resolution;
use clause_pool::{Kernel, Lit, Pool, Ref};
use pb_base::Memory;
use propagate::Engine;

// The place of the trail whose false literal this is, if it is marked and stands before `end`.
#[inline(always)]
fn place_before(engine: &Engine, marks: &[bool], lit: Lit, end: usize) -> Option<usize>
    requires end { end ≤ length engine.now.lits }
    requires table { length marks.now ≡ 2 * engine.now.vars }
    ensures found { IfSome result (IsMarkedAt engine.now.lits marks.now lit end) }
    ensures only { (k : ℕ) → IsMarkedAt engine.now.lits marks.now lit end k → result ≡ Some k }
{
    let lits = engine.trail();
    if !lit.is_marked(marks) {
        return None;
    }
    let place = engine.place_of(lit.var())?;
    if place >= end {
        return None;
    }
    if lits[place] == lit.not() {
        return Some(place);
    }
    None
}

// The latest marked place before `end`, by all literals that were marked.
fn last_touched(engine: &Engine, marks: &[bool], touched: &[Lit], end: usize) -> Option<usize>
    requires end { end ≤ length engine.now.lits }
    requires table { length marks.now ≡ 2 * engine.now.vars }
    requires touched { AreTouched marks.now touched.now }
    ensures top { IfSome result (IsTop engine.now.lits marks.now 0 end) }
    ensures none { IfNone result (NoneMarked engine.now.lits marks.now 0 end) }
{
    let mut behind = 0;
    for lit in touched {
        let Some(place) = place_before(engine, marks, *lit, end) else {
            continue;
        };
        if place >= behind {
            behind = place + 1;
        }
    }
    if behind == 0 {
        return None;
    }
    Some(behind - 1)
}

// The same by the trail, where that is less to go through.
fn latest_marked(engine: &Engine, resolution: &Resolution, end: usize) -> Option<usize>
    requires end { end ≤ length engine.now.lits }
    requires table { length resolution.now.marks.items ≡ 2 * engine.now.vars }
    requires touched { AreTouched resolution.now.marks.items resolution.now.touched.items }
    ensures top { IfSome result (IsTop engine.now.lits resolution.now.marks.items 0 end) }
    ensures none { IfNone result (NoneMarked engine.now.lits resolution.now.marks.items 0 end) }
{
    let count = resolution.touched.len();
    if count.saturating_mul(count) / 4 >= end {
        return last_marked(&resolution.marks, engine.trail(), 0, end);
    }
    last_touched(engine, &resolution.marks, &resolution.touched, end)
}

// Resolves all literals that have a reason away.
fn resolve_all(
    engine: &Engine,
    pool: &Pool,
    resolution: &mut Resolution,
    assumptions: &[Lit],
) -> Result<(), Memory>
    requires attached { pool.now.clauses ≡ engine.now.clauses }
    requires opened { AreOpened assumptions.now engine.now }
    requires chain { IsChain pool.now.clauses resolution.old }
    requires table { length resolution.old.marks.items ≡ 2 * engine.now.vars }
    requires others_false { AreFalseOrBlamed engine.now.lits resolution.old.marks.items assumptions.now }
    ensures chain { OnOk result (IsChain pool.now.clauses resolution.new) }
    ensures blamed { OnOk result (AreFalseOrBlamed [] resolution.new.marks.items assumptions.now) }
    ensures table { length resolution.new.marks.items ≡ 2 * engine.now.vars }
{
    let mut end = engine.trail().len();
    while let Some(place) = latest_marked(engine, resolution, end) {
        end = place;
        let Some(reason) = engine.reason_at(place) else {
            continue;
        };
        let at = Resolvable { place, reason };
        resolve_at(engine, pool, resolution, at, pool.lits(reason))?;
    }
    Ok(())
}

// Derives a clause of complements of assumptions from one that shows why they can't hold together.
fn derive_closing(
    kernel: &mut Kernel,
    engine: &Engine,
    resolution: &mut Resolution,
    literals: &mut Vec<Lit>,
    assumptions: &[Lit],
    at: Ref,
) -> Result<Ref, Memory>
    requires ready { IsReady kernel.old.clauses engine.now resolution.old.marks.items }
    requires closing { IsClosing engine.now assumptions.now at }
    ensures extends { Extends kernel.old kernel.new }
    ensures kept { IsKept kernel.new.clauses engine.now resolution.new.marks.items }
    ensures core { IfOk result (IsCore kernel.new assumptions.now) }
    ensures literals { IfOk result (AreLiteralsAt kernel.new.clauses resolution.new.marks.items) }
{
    kernel.given();
    resolution.begin(kernel.pool(), at)?;
    resolve_all(engine, kernel.pool(), resolution, assumptions)?;
    if resolution.pairs.is_empty() {
        return Ok(resolution.start);
    }
    let closed = append(kernel, resolution, literals)?;
    Ok(closed)
}

/// The same, with no mark left.
pub(crate) fn close(
    kernel: &mut Kernel,
    engine: &Engine,
    resolution: &mut Resolution,
    literals: &mut Vec<Lit>,
    assumptions: &[Lit],
    at: Ref,
) -> Result<Ref, Memory>
    requires ready { IsReady kernel.old.clauses engine.now resolution.old.marks.items }
    requires closing { IsClosing engine.now assumptions.now at }
    ensures extends { Extends kernel.old kernel.new }
    ensures kept { IsKept kernel.new.clauses engine.now resolution.new.marks.items }
    ensures core { IfOk result (IsCore kernel.new assumptions.now) }
    ensures clear { OnOk result (AreClear resolution.new.marks.items) }
{
    let closed = derive_closing(kernel, engine, resolution, literals, assumptions, at)?;
    unmark(&mut resolution.marks, kernel.pool().lits(closed));
    Ok(closed)
}
