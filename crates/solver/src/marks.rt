//! Marks of the literals of a clause in the making, by the code of the literal.
ghost use Rattle.std.specs.Prelude.{◌≡◌, ℕ, ◌+◌, ◌*◌, ◌<◌, ◌≤◌, [], length, slice_set, vec_len, vec_capacity, IfSome, IfNone, OnOk, true};
ghost use Rattle.clause_pool.specs.Clause.{has};
ghost use Rattle.clause_pool.specs.Marks.{marked, AreTouched};
ghost use Rattle.solver.specs.Marks.{AreClear, IsMarked, IsUnmarked, IsTop, NoneMarked, false_at};

use clause_pool::Lit;
use pb_base::Memory;

// Marks a literal, and notes it in room that is there, unless it is marked.
#[tactic(auto, using(crate::proofs::MarkLaws::touched_same, crate::proofs::MarkLaws::touched_one))]
#[inline(always)]
fn mark_one(marks: &mut Vec<bool>, touched: &mut Vec<Lit>, lit: Lit)
    requires below { lit < length marks.old.items }
    requires touched { AreTouched marks.old.items touched.old.items }
    requires room { vec_len touched.old < vec_capacity touched.old }
    ensures marks { marks.new.items ≡ slice_set marks.old.items lit true }
    ensures touched { AreTouched marks.new.items touched.new.items }
    ensures one_more { vec_len touched.new ≤ vec_len touched.old + 1 }
    ensures capacity { vec_capacity touched.new ≡ vec_capacity touched.old }
{
    let place = lit.code() as usize;
    if !marks[place] {
        touched.push_reserved(lit);
    }
    marks[place] = true;
}

/// Marks the literals of a clause, and notes those that weren't marked.
pub(crate) fn mark(
    marks: &mut Vec<bool>,
    touched: &mut Vec<Lit>,
    lits: &[Lit],
) -> Result<(), Memory>
    requires below { (l : ℕ) → has lits.now l ≡ true → l < length marks.old.items }
    requires touched { AreTouched marks.old.items touched.old.items }
    ensures counted { length marks.new.items ≡ length marks.old.items }
    ensures marked { OnOk result (IsMarked marks.old.items marks.new.items lits.now) }
    ensures touched { OnOk result (AreTouched marks.new.items touched.new.items) }
{
    touched.reserve(lits.len())?;
    for lit in lits {
        mark_one(marks, touched, *lit);
    }
    Ok(())
}

/// Takes the marks of the literals of a clause away.
pub(crate) fn unmark(marks: &mut Vec<bool>, lits: &[Lit])
    requires below { (l : ℕ) → has lits.now l ≡ true → l < length marks.old.items }
    ensures { IsUnmarked marks.old.items marks.new.items lits.now }
{
    for lit in lits {
        marks[lit.code() as usize] = false;
    }
}

/// Takes all marks away.
pub(crate) fn clear(marks: &mut Vec<bool>)
    ensures counted { length marks.new.items ≡ length marks.old.items }
    ensures clear { AreClear marks.new.items }
{
    for mark in marks.iter_mut() {
        *mark = false;
    }
}

/// Whether the false literal at this place of the trail is marked.
#[inline(always)]
pub(crate) fn is_marked(marks: &[bool], lits: &[Lit], place: usize) -> bool
    requires place { place < length lits.now }
    requires below { false_at lits.now place < length marks.now }
    ensures { result ≡ marked marks.now (false_at lits.now place) }
{
    marks[lits[place].not().code() as usize]
}

/// The latest place of the trail from one place on and before another whose false literal is marked, or none.
pub(crate) fn last_marked(marks: &[bool], lits: &[Lit], from: usize, end: usize) -> Option<usize>
    requires end { end ≤ length lits.now }
    requires below { (k : ℕ) → k < length lits.now → false_at lits.now k < length marks.now }
    ensures top { IfSome result (IsTop lits.now marks.now from end) }
    ensures none { IfNone result (NoneMarked lits.now marks.now from end) }
{
    let mut place = end;
    while place > from {
        place -= 1;
        if is_marked(marks, lits, place) {
            return Some(place);
        }
    }
    None
}
