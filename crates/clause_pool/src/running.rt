//! The running clause of a chain, as marks. So a resolution step takes as much work as the other clause has literals,
//! however long the running one is.
ghost use Rattle.std.specs.Prelude.{◌≡◌, ◌+◌, ◌<◌, ◌≤◌, ℕ, [], ◌∷◌, ◌++◌, false, length, slice_set, vec_len, vec_capacity, IfOk, OnOk};
ghost use Rattle.std.specs.List.{filter};
ghost use Rattle.clause_pool.specs.Literal.{complement};
ghost use Rattle.clause_pool.specs.Clause.{has, without, clause_of};
ghost use Rattle.clause_pool.specs.Chain.{resolved};
ghost use Rattle.clause_pool.specs.Marks.{marked, AreTouched, IsJoined};

use crate::lit::Lit;
use std::alloc::{AllocError, Global};
use std::marker::Model;

/// A clause in the making.
#[derive(Drop)]
pub(crate) struct Running {
    // By the code of the literal.
    marks: Vec<bool>,
    // Every marked literal, also more than once, and some that aren't marked any more.
    touched: Vec<Lit>,
}

impl Model for Running {
    ghost use Rattle.std.specs.Prelude.{ℕ, List};
    ghost use Rattle.clause_pool.specs.Marks.{AreTouched, clause_marked};

    ghost Value = { List ℕ };

    ghost view = { λ r. clause_marked r.marks.items r.touched.items };

    ghost invariant = { λ r. AreTouched r.marks.items r.touched.items };
}

impl Running {
    /// The empty clause. It takes no memory.
    pub(crate) fn new(alloc: Global) -> Running
        ensures { result ≡ [] }
    {
        Running {
            marks: Vec::new(alloc),
            touched: Vec::new(alloc),
        }
    }

    /// Whether the clause has a literal.
    pub(crate) fn has(&self, lit: Lit) -> bool
        ensures { result ≡ has self.now lit }
    {
        lit.is_marked(&self.marks)
    }

    /// Becomes the clause of these literals.
    pub(crate) fn begin(&mut self, lits: &[Lit]) -> Result<(), AllocError>
        ensures { OnOk result (self.new ≡ clause_of lits.now) }
    {
        wipe(&mut self.marks, &mut self.touched);
        put_all(&mut self.marks, &mut self.touched, lits)?;
        Ok(())
    }

    /// Becomes the resolvent with another clause on a literal, and tells whether the other has its complement.
    pub(crate) fn resolve(&mut self, lit: Lit, other: &[Lit]) -> Result<bool, AllocError>
        ensures resolvent { OnOk result (self.new ≡ resolved self.old lit other.now) }
        ensures pivot { IfOk result (λ found. found ≡ has other.now (complement lit)) }
    {
        set_mark(&mut self.marks, lit, false);
        let found = put_others(&mut self.marks, &mut self.touched, other, lit.not())?;
        Ok(found)
    }

    /// Writes the literals of the clause, in any order and maybe with repeats.
    pub(crate) fn write(&self, out: &mut Vec<Lit>) -> Result<(), AllocError>
        ensures { OnOk result (clause_of out.new.items ≡ self.now) }
    {
        out.clear();
        push_marked(&self.marks, &self.touched, out)?;
        Ok(())
    }
}

// Writes the mark of a literal, if the table reaches to it.
fn set_mark(marks: &mut Vec<bool>, lit: Lit, mark: bool)
    ensures { marks.new.items ≡ slice_set marks.old.items lit mark }
{
    if let Some(entry) = marks.get_mut(lit.code() as usize) {
        *entry = mark;
    }
}

// Takes all marks away.
fn wipe(marks: &mut Vec<bool>, touched: &mut Vec<Lit>)
    requires { AreTouched marks.old.items touched.old.items }
    ensures marks { (l : ℕ) → marked marks.new.items l ≡ false }
    ensures touched { touched.new.items ≡ [] }
{
    unmark_all(marks, touched);
    touched.clear();
}

// Takes the marks of these literals away, which are all.
fn unmark_all(marks: &mut Vec<bool>, touched: &[Lit])
    requires { AreTouched marks.old.items touched.now }
    ensures { (l : ℕ) → marked marks.new.items l ≡ false }
{
    for lit in touched {
        set_mark(marks, *lit, false);
    }
}

// Makes the table reach to a literal.
fn reach(marks: &mut Vec<bool>, lit: Lit) -> Result<(), AllocError>
    ensures reaches { OnOk result (lit < length marks.new.items) }
    ensures same { (l : ℕ) → marked marks.new.items l ≡ marked marks.old.items l }
{
    let place = lit.code() as usize;
    if marks.len() <= place {
        marks.resize(place + 1, false)?;
    }
    Ok(())
}

// Marks a literal, and notes it in room that is there.
fn put(marks: &mut Vec<bool>, touched: &mut Vec<Lit>, lit: Lit) -> Result<(), AllocError>
    requires touched { AreTouched marks.old.items touched.old.items }
    requires room { vec_len touched.old < vec_capacity touched.old }
    ensures touched { AreTouched marks.new.items touched.new.items }
    ensures joined { OnOk result (IsJoined marks.old.items marks.new.items (lit ∷ [])) }
    ensures one_more { vec_len touched.new ≤ vec_len touched.old + 1 }
    ensures capacity { vec_capacity touched.new ≡ vec_capacity touched.old }
{
    if lit.is_marked(marks) {
        return Ok(());
    }
    touched.push_reserved(lit);
    reach(marks, lit)?;
    set_mark(marks, lit, true);
    Ok(())
}

// Marks the literals of a clause.
fn put_all(marks: &mut Vec<bool>, touched: &mut Vec<Lit>, lits: &[Lit]) -> Result<(), AllocError>
    requires { AreTouched marks.old.items touched.old.items }
    ensures touched { AreTouched marks.new.items touched.new.items }
    ensures joined { OnOk result (IsJoined marks.old.items marks.new.items lits.now) }
{
    touched.reserve(lits.len())?;
    for lit in lits {
        put(marks, touched, *lit)?;
    }
    Ok(())
}

// Marks the literals of a clause but one, and tells whether the clause has that.
fn put_others(
    marks: &mut Vec<bool>,
    touched: &mut Vec<Lit>,
    lits: &[Lit],
    left_out: Lit,
) -> Result<bool, AllocError>
    requires { AreTouched marks.old.items touched.old.items }
    ensures touched { AreTouched marks.new.items touched.new.items }
    ensures joined { OnOk result
        (IsJoined marks.old.items marks.new.items (without left_out lits.now)) }
    ensures found { IfOk result (λ found. found ≡ has lits.now left_out) }
{
    touched.reserve(lits.len())?;
    let mut found = false;
    for lit in lits {
        if *lit == left_out {
            found = true;
            continue;
        }
        put(marks, touched, *lit)?;
    }
    Ok(found)
}

// Appends a literal, if it is marked.
fn push_if_marked(marks: &[bool], lit: Lit, out: &mut Vec<Lit>) -> Result<(), AllocError>
    ensures { OnOk result
        (out.new.items ≡ out.old.items ++ filter (λ l. marked marks.now l) (lit ∷ [])) }
{
    if !lit.is_marked(marks) {
        return Ok(());
    }
    out.push(lit)?;
    Ok(())
}

/// Appends those of these literals that a table marks, in their order. The table is by the code of a literal. On want of
/// memory only the first of them may be there.
pub fn push_marked(marks: &[bool], lits: &[Lit], out: &mut Vec<Lit>) -> Result<(), AllocError>
    ensures { OnOk result
        (out.new.items ≡ out.old.items ++ filter (λ l. marked marks.now l) lits.now) }
{
    for lit in lits {
        push_if_marked(marks, *lit, out)?;
    }
    Ok(())
}
