//! The clauses of one question set, in one region.
ghost use Rattle.std.specs.Prelude.{◌≡◌, ◌+◌, ◌<◌, ◌≤◌, [], ◌∷◌, ◌++◌, length, take, slice_index_or, IfOk, OnOk, OnErr};
ghost use Rattle.clause_pool.specs.Clause.{IsRising, clause_of};

use crate::in_order::put_in_order;
use crate::lit::Lit;
use crate::region::{list_at, make_room};
use pb_base::Memory;
use std::alloc::Global;
use std::marker::Model;

/// The place of a clause in a pool, counted from 0.
pub type Ref = usize;

/// A list of clauses, each the rising list of its literals, and the room beside them. The literals of all clauses lie
/// in one vector, in the order in which the clauses were added.
#[derive(Drop)]
pub struct Pool {
    lits: Vec<Lit>,
    starts: Vec<usize>,
    // Where the literals of a clause are put in order. Its room is a part of the pool's.
    scratch: Vec<Lit>,
}

impl Model for Pool {
    ghost use Rattle.std.specs.Prelude.{◌-◌, min, length, vec_len, vec_capacity};
    ghost use Rattle.std.specs.List.{AllByRecursion};
    ghost use Rattle.clause_pool.specs.Clause.{IsRising};
    ghost use Rattle.clause_pool.specs.PoolContents.{PoolContents};
    ghost use Rattle.clause_pool.specs.Region.{region, IsRegion};

    ghost Value = { PoolContents };

    ghost view = { λ p. record {
      clauses = region p.starts.items p.lits.items;
      spare_clauses = vec_capacity p.starts - vec_len p.starts;
      spare_lits = min (vec_capacity p.lits - vec_len p.lits) (vec_capacity p.scratch);
    } };

    ghost invariant = { λ p. IsRegion p.starts.items (length p.lits.items)
        × AllByRecursion IsRising (region p.starts.items p.lits.items) };
}

/// A length of a pool, to which it can be taken back.
#[derive(Clone, Copy, Debug, PartialEq, Eq)]
pub struct Mark {
    clauses: usize,
}

impl Model for Mark {
    ghost use Rattle.std.specs.Prelude.{ℕ};

    ghost Value = { ℕ };

    ghost view = { λ m. m.clauses };

    ghost inverse = { λ n. record { clauses = n } };
}

impl Pool {
    /// A pool without clauses. It takes no memory.
    pub fn new(alloc: Global) -> Pool
        ensures { result.clauses ≡ [] }
    {
        Pool {
            lits: Vec::new(alloc),
            starts: Vec::new(alloc),
            scratch: Vec::new(alloc),
        }
    }

    /// The number of clauses.
    #[tactic(auto, using(crate::proofs::RegionLaws::length_region))]
    pub fn len(&self) -> usize
        ensures { result ≡ length self.now.clauses }
    {
        self.starts.len()
    }

    /// The literals of the clause at this place.
    #[inline(always)]
    #[tactic(auto, using(crate::proofs::RegionLaws::length_region))]
    pub fn lits(&self, at: Ref) -> &[Lit]
        requires { at < length self.now.clauses }
        ensures clause { result.now ≡ slice_index_or self.now.clauses at [] }
        ensures rising { IsRising result.now }
    {
        list_at(&self.lits, &self.starts, at)
    }

    /// Makes room for so many further clauses, and for so many further literals.
    pub fn reserve(&mut self, clauses: usize, lits: usize) -> Result<(), Memory>
        ensures clauses { self.new.clauses ≡ self.old.clauses }
        ensures room_for_clauses { OnOk result (clauses ≤ self.new.spare_clauses) }
        ensures room_for_lits { OnOk result (lits ≤ self.new.spare_lits) }
        ensures keeps_clauses { self.old.spare_clauses ≤ self.new.spare_clauses }
        ensures keeps_lits { self.old.spare_lits ≤ self.new.spare_lits }
    {
        make_room(&mut self.starts, clauses)?;
        make_room(&mut self.lits, lits)?;
        self.scratch.clear();
        self.scratch.reserve(lits)?;
        Ok(())
    }

    /// Appends the clause of these literals, in any order and with repeats, in room that was reserved. It takes no
    /// memory.
    pub fn add_reserved(&mut self, lits: &[Lit]) -> Ref
        requires room_for_clause { 0 < self.old.spare_clauses }
        requires room_for_lits { length lits.now ≤ self.old.spare_lits }
        ensures place { result ≡ length self.old.clauses }
        ensures clauses { self.new.clauses ≡ self.old.clauses ++ clause_of lits.now ∷ [] }
        ensures uses_one { self.old.spare_clauses ≤ self.new.spare_clauses + 1 }
        ensures uses_lits { self.old.spare_lits ≤ self.new.spare_lits + length lits.now }
    {
        let at = self.starts.len();
        self.starts.push_reserved(self.lits.len());
        put_in_order(&mut self.lits, &mut self.scratch, lits);
        at
    }

    /// Appends the clause of these literals, in any order and with repeats.
    pub fn add(&mut self, lits: &[Lit]) -> Result<Ref, Memory>
        ensures place { IfOk result (λ at. at ≡ length self.old.clauses) }
        ensures ok { OnOk result (self.new.clauses ≡ self.old.clauses ++ clause_of lits.now ∷ []) }
        ensures err { OnErr result (self.new.clauses ≡ self.old.clauses) }
    {
        self.reserve(1, lits.len())?;
        Ok(self.add_reserved(lits))
    }

    /// The pool's length now.
    pub fn mark(&self) -> Mark
        ensures { result ≡ length self.now.clauses }
    {
        Mark {
            clauses: self.len(),
        }
    }

    /// Removes all clauses from the mark's length on. Their room becomes spare.
    pub fn take_back(&mut self, mark: Mark)
        requires { mark ≤ length self.old.clauses }
        ensures clauses { self.new.clauses ≡ take mark self.old.clauses }
        ensures keeps_clauses { self.old.spare_clauses ≤ self.new.spare_clauses }
        ensures keeps_lits { self.old.spare_lits ≤ self.new.spare_lits }
    {
        if mark.clauses < self.starts.len() {
            self.lits.truncate(self.starts[mark.clauses]);
            self.starts.truncate(mark.clauses);
        }
    }
}
