//! The way to a learnt clause: which marks to resolve away, without a walk over the whole trail.
ghost use Rattle.std.specs.Prelude.{◌≡◌, ℕ, ◌+◌, ◌*◌, ◌<◌, length, IfSome, OnSome, true};
ghost use Rattle.std.specs.BinaryHeap.{heap_len};
ghost use Rattle.clause_pool.specs.Clause.{has};
ghost use Rattle.propagate.specs.Trail.{AreLiterals};
ghost use Rattle.solver.specs.Marks.{IsResolvable};

use crate::conflict::Resolvable;
use crate::marks::is_marked;
use crate::order::Order;
use clause_pool::{Lit, Pool};
use propagate::Engine;
use std::alloc::Global;
use std::collections::BinaryHeap;

/// The places of the trail where the literals of the clauses stand that a chain was made of. No contract speaks of them.
#[derive(Drop)]
pub(crate) struct Way {
    // Where the literals of a resolvent are written.
    pub(crate) literals: Vec<Lit>,
    // The places that reasons at level 0 lead to.
    pub(crate) ahead: BinaryHeap<usize, Global>,
    // The places of the clause at level 0, in any order.
    pub(crate) fixed: Vec<usize>,
    // And those between level 0 and the current one.
    pub(crate) between: Vec<usize>,
}

/// Where level 0 ends, and where the current level starts.
#[derive(Clone, Copy)]
pub(crate) struct Span {
    pub(crate) fixed: usize,
    pub(crate) start: usize,
}

impl Way {
    /// No places. It takes no memory.
    pub(crate) fn new(alloc: Global) -> Way {
        Way {
            literals: Vec::new(alloc),
            ahead: BinaryHeap::new(alloc),
            fixed: Vec::new(alloc),
            between: Vec::new(alloc),
        }
    }

    /// Begins a learnt clause with the literals of one that is false.
    pub(crate) fn begin_lesson(
        &mut self,
        engine: &Engine,
        order: &mut Order,
        lits: &[Lit],
        span: Span,
    )
        requires { AreLiterals lits.now (2 * engine.now.vars) }
    {
        self.ahead.clear();
        self.fixed.clear();
        self.between.clear();
        self.look_back(engine, order, &[], lits, span);
    }

    /// Puts the places of literals that are not marked yet ahead, as far as they come before this one. What there is no
    /// room for isn't found by the way.
    #[tactic(auto, using(propagate::proofs::TakeLaws::item_in))]
    pub(crate) fn look_ahead(&mut self, engine: &Engine, marks: &[bool], lits: &[Lit], end: usize)
        requires { AreLiterals lits.now (2 * engine.now.vars) }
    {
        for lit in lits {
            if lit.is_marked(marks) {
                continue;
            }
            if let Some(place) = engine.place_of(lit.var())
                && place < end
                && self.ahead.push(place).is_err()
            {
                return;
            }
        }
    }

    /// Counts the literals of a clause as ones in a conflict, and puts the places of those down that are not marked yet, as
    /// far as they come before the current level and have a reason. What there is no room for stays in the learnt clause.
    #[tactic(auto, using(propagate::proofs::TakeLaws::item_in))]
    pub(crate) fn look_back(
        &mut self,
        engine: &Engine,
        order: &mut Order,
        marks: &[bool],
        lits: &[Lit],
        span: Span,
    )
        requires { AreLiterals lits.now (2 * engine.now.vars) }
    {
        for lit in lits {
            order.bump(*lit);
            if lit.is_marked(marks) {
                continue;
            }
            let Some(place) = engine.place_of(lit.var()) else {
                continue;
            };
            if place >= span.start || engine.reason_at(place).is_none() {
                continue;
            }
            self.put_down(place, span.fixed);
        }
    }

    // Puts a place down.
    fn put_down(&mut self, place: usize, fixed: usize) {
        if place < fixed {
            let _ = self.fixed.push(place);
        } else {
            let _ = self.between.push(place);
        }
    }
}

// Whether each literal of a clause but this one is marked.
#[tactic(auto, using(propagate::proofs::TakeLaws::item_in))]
fn others_marked(marks: &[bool], lits: &[Lit], left_out: Lit) -> bool
    requires { (l : ℕ) → has lits.now l ≡ true → l < length marks.now }
{
    for lit in lits {
        if *lit != left_out && !marks[lit.code() as usize] {
            return false;
        }
    }
    true
}

// A place, if it is before `end`, is marked and has a reason.
#[tactic(auto, using(crate::proofs::MarkLaws::false_below))]
fn resolvable_at(engine: &Engine, marks: &[bool], place: usize, end: usize) -> Option<Resolvable>
    requires table { length marks.now ≡ 2 * engine.now.vars }
    ensures resolvable { IfSome result (IsResolvable engine.now marks.now) }
    ensures before { IfSome result (λ at. at.place < end) }
{
    let lits = engine.trail();
    if place >= end || place >= lits.len() || !is_marked(marks, lits, place) {
        return None;
    }
    let reason = engine.reason_at(place)?;
    Some(Resolvable { place, reason })
}

// Whether all others of the reason of a false literal are marked.
fn is_needless(engine: &Engine, pool: &Pool, marks: &[bool], at: Resolvable) -> bool
    requires attached { pool.now.clauses ≡ engine.now.clauses }
    requires resolvable { IsResolvable engine.now marks.now at }
    requires table { length marks.now ≡ 2 * engine.now.vars }
{
    let lit = engine.trail()[at.place];
    others_marked(marks, pool.lits(at.reason), lit)
}

// The last of these places that is before `end`, is marked and has a reason, of which all others are marked.
fn next_between(
    engine: &Engine,
    pool: &Pool,
    marks: &[bool],
    between: &mut Vec<usize>,
    end: usize,
) -> Option<Resolvable>
    requires attached { pool.now.clauses ≡ engine.now.clauses }
    requires table { length marks.now ≡ 2 * engine.now.vars }
    ensures resolvable { IfSome result (IsResolvable engine.now marks.now) }
    ensures before { IfSome result (λ at. at.place < end) }
{
    while let Some(place) = between.pop() {
        let Some(at) = resolvable_at(engine, marks, place, end) else {
            continue;
        };
        if is_needless(engine, pool, marks, at) {
            return Some(at);
        }
    }
    None
}

// The later one of the last place here and the latest ahead.
fn later(fixed: &mut Vec<usize>, ahead: &mut BinaryHeap<usize, Global>) -> Option<usize>
    ensures { OnSome result (length fixed.new.items + heap_len ahead.new
        < length fixed.old.items + heap_len ahead.old) }
{
    match (fixed.last(), ahead.peek()) {
        (Some(place), Some(other)) if *place < *other => ahead.pop(),
        (Some(_), _) => fixed.pop(),
        (None, _) => ahead.pop(),
    }
}

// The latest place of level 0 that is before `end`, is marked and has a reason.
fn next_fixed(engine: &Engine, marks: &[bool], way: &mut Way, end: usize) -> Option<Resolvable>
    requires table { length marks.now ≡ 2 * engine.now.vars }
    ensures resolvable { IfSome result (IsResolvable engine.now marks.now) }
    ensures before { IfSome result (λ at. at.place < end) }
{
    while let Some(place) = later(&mut way.fixed, &mut way.ahead) {
        let found = resolvable_at(engine, marks, place, end);
        if found.is_some() {
            return found;
        }
    }
    None
}

/// The latest place that is needless and before `end`: one from level 0 on where all others of the reason are marked, and
/// behind those any of level 0.
pub(crate) fn next_needless(
    engine: &Engine,
    pool: &Pool,
    marks: &[bool],
    way: &mut Way,
    end: usize,
) -> Option<Resolvable>
    requires attached { pool.now.clauses ≡ engine.now.clauses }
    requires table { length marks.now ≡ 2 * engine.now.vars }
    ensures resolvable { IfSome result (IsResolvable engine.now marks.now) }
    ensures before { IfSome result (λ at. at.place < end) }
{
    let between = next_between(engine, pool, marks, &mut way.between, end);
    if between.is_some() {
        return between;
    }
    next_fixed(engine, marks, way, end)
}
