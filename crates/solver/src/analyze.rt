//! What a conflict teaches: a clause with one literal of the current level.
ghost use Rattle.std.specs.Prelude.{◌≡◌, ℕ, ◌+◌, ◌*◌, ◌-◌, ◌<◌, ◌≤◌, length, take, IfOk, OnOk, OnErr, IfSome, IfNone};
ghost use Rattle.clause_pool.specs.Literal.{complement};
ghost use Rattle.clause_pool.specs.Clause.{KeepsBounds};
ghost use Rattle.clause_pool.specs.Marks.{marked};
ghost use Rattle.propagate.specs.Trail.{IsTrail, AreLiterals, level};
ghost use Rattle.solver.specs.Marks.{IsChain, IsTop, IsUip, NoneMarked, AreFalse, AreClear, false_at, start_of};
ghost use Rattle.solver.specs.Search.{IsReady, IsKept, IsLearning, IsAppended, IsLesson};
ghost use Rattle.chains.specs.Growth.{Extends};

use crate::conflict::{Resolvable, resolve_at};
use crate::marks::{last_marked, unmark};
use crate::minimize::minimize;
use crate::order::Order;
use crate::resolution::Resolution;
use crate::way::{Span, Way};
use clause_pool::{Kernel, Lit, Pool, Ref, push_marked};
use pb_base::Memory;
use propagate::Engine;

// The latest marked place before `end`, where a marked place from `from` on is known.
fn next_below(marks: &[bool], lits: &[Lit], from: usize, end: usize, known: usize) -> Option<usize>
    requires known { IsTop lits.now marks.now from (known + 1) known }
    requires within { known ≤ end }
    requires end { end < length lits.now }
    requires below { (k : ℕ) → k < length lits.now → false_at lits.now k < length marks.now }
    ensures found { IfSome result (λ k. IsTop lits.now marks.now from (k + 1) k) }
    ensures before { IfSome result (λ k. k < end) }
    ensures none { IfNone result (NoneMarked lits.now marks.now from end) }
{
    if known < end {
        return Some(known);
    }
    last_marked(marks, lits, from, end)
}

/// Resolves down the trail until one literal of the current level is left, and gives its complement's place.
pub(crate) fn find_uip(
    engine: &Engine,
    pool: &Pool,
    resolution: &mut Resolution,
    way: &mut Way,
    order: &mut Order,
) -> Result<usize, Memory>
    requires attached { pool.now.clauses ≡ engine.now.clauses }
    requires level { 0 < level engine.now }
    requires chain { IsChain pool.now.clauses resolution.old }
    requires table { length resolution.old.marks.items ≡ 2 * engine.now.vars }
    requires all_false { AreFalse engine.now.lits resolution.old.marks.items }
    requires not_before { AreFalse (take (start_of engine.now) engine.now.lits) resolution.old.marks.items
        → ⊥ }
    ensures chain { OnOk result (IsChain pool.now.clauses resolution.new) }
    ensures uip { IfOk result (IsUip engine.now resolution.new.marks.items) }
    ensures table { length resolution.new.marks.items ≡ 2 * engine.now.vars }
{
    let lits = engine.trail();
    let start = engine.end_of(engine.level() - 1);
    let fixed = engine.end_of(0);
    let span = Span { fixed, start };
    let Some(mut place) = last_marked(&resolution.marks, lits, start, lits.len()) else {
        unreachable!();
    };
    let mut known = place;
    while let Some(below) = next_below(&resolution.marks, lits, start, place, known) {
        let Some(reason) = engine.reason_at(place) else {
            unreachable!();
        };
        let clause = pool.lits(reason);
        way.look_back(engine, order, &resolution.marks, clause, span);
        let at = Resolvable { place, reason };
        resolve_at(engine, pool, resolution, at, clause)?;
        let Some(next) = last_marked(&resolution.marks, lits, below, place) else {
            unreachable!();
        };
        place = next;
        known = below;
    }
    Ok(place)
}

/// Appends the resolvent of a chain to a kernel. Its literals are written to the vector first.
pub(crate) fn append(
    kernel: &mut Kernel,
    resolution: &Resolution,
    literals: &mut Vec<Lit>,
) -> Result<Ref, Memory>
    requires chain { IsChain kernel.old.clauses resolution.now }
    requires some { 0 < length resolution.now.pairs.items }
    ensures place { IfOk result (λ at. at ≡ length kernel.old.clauses) }
    ensures appended { OnOk result (IsAppended kernel.old kernel.new resolution.now.marks.items) }
    ensures bounds { KeepsBounds kernel.old.clauses kernel.new.clauses }
    ensures err { OnErr result (kernel.new ≡ kernel.old) }
{
    literals.clear();
    push_marked(&resolution.marks, &resolution.touched, literals)?;
    let at = kernel.append(resolution.start, &resolution.pairs, literals)?;
    Ok(at)
}

// Begins the way with the literals of a clause that is false.
fn begin_lesson(engine: &Engine, way: &mut Way, order: &mut Order, lits: &[Lit])
    requires level { 0 < level engine.now }
    requires below { AreLiterals lits.now (2 * engine.now.vars) }
{
    let start = engine.end_of(engine.level() - 1);
    let fixed = engine.end_of(0);
    way.begin_lesson(engine, order, lits, Span { fixed, start });
}

// Resolves a clause that is false down to one with a single literal of the current level, and gives the place of
// the trail that stands against it.
fn resolve_conflict(
    engine: &Engine,
    pool: &Pool,
    resolution: &mut Resolution,
    way: &mut Way,
    order: &mut Order,
    at: Ref,
) -> Result<usize, Memory>
    requires ready { IsReady pool.now.clauses engine.now resolution.old.marks.items }
    requires level { 0 < level engine.now }
    requires conflict { IsLearning engine.now at }
    ensures chain { OnOk result (IsChain pool.now.clauses resolution.new) }
    ensures uip { IfOk result (IsUip engine.now resolution.new.marks.items) }
    ensures some { OnOk result (0 < length resolution.new.pairs.items) }
    ensures trail { IsTrail engine.now }
    ensures table { length resolution.new.marks.items ≡ 2 * engine.now.vars }
{
    engine.level();
    begin_lesson(engine, way, order, pool.lits(at));
    resolution.begin(pool, at)?;
    let place = find_uip(engine, pool, resolution, way, order)?;
    minimize(engine, pool, resolution, way, place)?;
    Ok(place)
}

/// Learns a clause from one that is false, and gives the place of the trail at which it stands against it.
pub(crate) fn analyze(
    kernel: &mut Kernel,
    engine: &Engine,
    resolution: &mut Resolution,
    way: &mut Way,
    order: &mut Order,
    at: Ref,
) -> Result<usize, Memory>
    requires ready { IsReady kernel.old.clauses engine.now resolution.old.marks.items }
    requires level { 0 < level engine.now }
    requires conflict { IsLearning engine.now at }
    ensures extends { Extends kernel.old kernel.new }
    ensures kept { IsKept kernel.new.clauses engine.now resolution.new.marks.items }
    ensures learnt { IfOk result (IsLesson kernel.old kernel.new engine.now) }
    ensures clear { OnOk result (AreClear resolution.new.marks.items) }
{
    kernel.given();
    let place = resolve_conflict(engine, kernel.pool(), resolution, way, order, at)?;
    let learnt = append(kernel, resolution, &mut way.literals)?;
    unmark(&mut resolution.marks, kernel.pool().lits(learnt));
    order.decay();
    Ok(place)
}
