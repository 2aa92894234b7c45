//! A resolution chain in the making.
ghost use Rattle.std.specs.Prelude.{◌≡◌, ℕ, ◌<◌, [], length, slice_index_or, IfOk, OnOk, true};
ghost use Rattle.clause_pool.specs.Literal.{complement};
ghost use Rattle.clause_pool.specs.Clause.{has};
ghost use Rattle.clause_pool.specs.Marks.{marked, AreTouched};
ghost use Rattle.solver.specs.Marks.{AreClear, IsChain, IsResolved};

use crate::marks::mark;
use clause_pool::{Lit, Pair, Pool, Ref};
use pb_base::Memory;
use std::alloc::Global;

/// A chain, with a mark for each literal of its resolvent, by the code of the literal.
#[derive(Drop)]
pub(crate) struct Resolution {
    pub(crate) start: Ref,
    pub(crate) pairs: Vec<Pair>,
    pub(crate) marks: Vec<bool>,
    // The literals that were marked since the chain began.
    pub(crate) touched: Vec<Lit>,
}

impl Resolution {
    #[tactic(auto, using(crate::proofs::MarkLaws::none_marked))]
    /// No marks, with room for so many literals.
    pub(crate) fn new(alloc: Global, literals: usize) -> Result<Resolution, Memory>
        ensures table { IfOk result (λ r. length r.marks.items ≡ literals) }
        ensures clear { IfOk result (λ r. AreClear r.marks.items) }
    {
        Ok(Resolution {
            start: 0,
            pairs: Vec::new(alloc),
            marks: vec![in alloc; false; literals]?,
            touched: Vec::new(alloc),
        })
    }

    /// Begins with the clause at this place.
    pub(crate) fn begin(&mut self, pool: &Pool, at: Ref) -> Result<(), Memory>
        requires there { at < length pool.now.clauses }
        requires clear { AreClear self.old.marks.items }
        requires below { (l : ℕ) → has (slice_index_or pool.now.clauses at []) l ≡ true
            → l < length self.old.marks.items }
        ensures start { self.new.start ≡ at }
        ensures pairs { self.new.pairs.items ≡ [] }
        ensures marks { OnOk result ((l : ℕ)
            → marked self.new.marks.items l ≡ has (slice_index_or pool.now.clauses at []) l) }
        ensures touched { OnOk result (AreTouched self.new.marks.items self.new.touched.items) }
        ensures table { length self.new.marks.items ≡ length self.old.marks.items }
    {
        self.start = at;
        self.pairs.clear();
        self.touched.clear();
        mark(&mut self.marks, &mut self.touched, pool.lits(at))
    }

    /// Resolves a marked literal away by a clause of a pool that has its complement, and whose literals are given.
    pub(crate) fn resolve(
        &mut self,
        pool: &Pool,
        lit: Lit,
        with: Ref,
        lits: &[Lit],
    ) -> Result<(), Memory>
        requires there { with < length pool.now.clauses }
        requires clause { lits.now ≡ slice_index_or pool.now.clauses with [] }
        requires chain { IsChain pool.now.clauses self.old }
        requires is_marked { marked self.old.marks.items lit ≡ true }
        requires pivot { has (slice_index_or pool.now.clauses with []) (complement lit) ≡ true }
        requires below { (l : ℕ) → has (slice_index_or pool.now.clauses with []) l ≡ true
            → l < length self.old.marks.items }
        ensures chain { OnOk result (IsChain pool.now.clauses self.new) }
        ensures resolved { OnOk result
            (IsResolved self.old.marks.items self.new.marks.items lit (slice_index_or pool.now.clauses with [])) }
        ensures table { length self.new.marks.items ≡ length self.old.marks.items }
    {
        self.pairs.push(Pair { lit, with })?;
        replace_marks(&mut self.marks, &mut self.touched, lit, lits)?;
        Ok(())
    }
}

// Marks the literals of a clause in place of the literal that it is resolved on.
fn replace_marks(
    marks: &mut Vec<bool>,
    touched: &mut Vec<Lit>,
    lit: Lit,
    lits: &[Lit],
) -> Result<(), Memory>
    requires touched { AreTouched marks.old.items touched.old.items }
    requires is_marked { marked marks.old.items lit ≡ true }
    requires pivot { has lits.now (complement lit) ≡ true }
    requires below { (l : ℕ) → has lits.now l ≡ true → l < length marks.old.items }
    ensures counted { length marks.new.items ≡ length marks.old.items }
    ensures resolved { OnOk result (IsResolved marks.old.items marks.new.items lit lits.now) }
    ensures touched { OnOk result (AreTouched marks.new.items touched.new.items) }
{
    let other = lit.not().code() as usize;
    let was_marked = marks[other];
    marks[lit.code() as usize] = false;
    mark(marks, touched, lits)?;
    marks[other] = was_marked;
    Ok(())
}
