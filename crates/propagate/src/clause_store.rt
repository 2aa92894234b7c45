//! The engine's own copy of the clauses.
ghost use Rattle.std.specs.Prelude.{◌≡◌, ◌+◌, ◌-◌, ◌<◌, ◌≤◌, ◌^◌, [], ◌∷◌, ◌++◌, length, take, slice_index_or, vec_len, vec_capacity, All, OnOk, OnErr};
ghost use Rattle.clause_pool.specs.Region.{IsRegion, region};

use clause_pool::{Lit, make_room};
use pb_base::Memory;
use std::alloc::Global;
use std::marker::Model;

/// Clauses in one flat vector of codes of 32 bits. Contracts see the list of the clauses.
#[derive(Drop)]
pub(crate) struct ClauseStore {
    codes: Vec<u32>,
    starts: Vec<u32>,
}

impl Model for ClauseStore {
    ghost use Rattle.std.specs.Prelude.{List, ℕ, length, ◌<◌, ◌^◌};
    ghost use Rattle.clause_pool.specs.Region.{IsRegion, region};

    ghost Value = { List (List ℕ) };

    ghost view = { λ s. region s.starts.items s.codes.items };

    ghost invariant = { λ s. IsRegion s.starts.items (length s.codes.items) };
}

impl ClauseStore {
    pub(crate) fn new(alloc: Global) -> ClauseStore
        ensures { result ≡ [] }
    {
        ClauseStore {
            codes: Vec::new(alloc),
            starts: Vec::new(alloc),
        }
    }

    /// The number of clauses.
    #[tactic(auto, using(clause_pool::proofs::RegionLaws::length_region))]
    pub(crate) fn len(&self) -> usize
        ensures { result ≡ length self.now }
    {
        self.starts.len()
    }

    /// The literals of a clause.
    #[inline(always)]
    #[tactic(auto, using(clause_pool::proofs::RegionLaws::length_region))]
    pub(crate) fn codes(&self, at: u32) -> &[u32]
        requires { at < length self.now }
        ensures { result.now ≡ slice_index_or self.now at [] }
    {
        list_at(&self.codes, &self.starts, at as usize)
    }

    /// Takes the last clause back.
    pub(crate) fn pop(&mut self)
        requires { 0 < length self.old }
        ensures { self.new ≡ take (length self.old - 1) self.old }
    {
        let last = self.starts.len() - 1;
        self.codes.truncate(self.starts[last] as usize);
        self.starts.truncate(last);
    }

    /// A further clause. On want of memory the store is as before.
    pub(crate) fn push(&mut self, lits: &[Lit]) -> Result<(), Memory>
        requires { All (λ l. l < 2 ^ 32) lits.now }
        ensures ok { OnOk result (self.new ≡ self.old ++ lits.now ∷ []) }
        ensures err { OnErr result (self.new ≡ self.old) }
    {
        let start = self.codes.len();
        if start >= 1 << 32 {
            return Err(Memory);
        }
        make_room(&mut self.starts, 1)?;
        make_room(&mut self.codes, lits.len())?;
        self.starts.push_reserved(start as u32);
        append_codes(&mut self.codes, lits);
        Ok(())
    }
}

// Puts the codes of these literals behind the others, in room that is there.
fn append_codes(codes: &mut Vec<u32>, lits: &[Lit])
    requires room { vec_len codes.old + length lits.now ≤ vec_capacity codes.old }
    requires small { All (λ l. l < 2 ^ 32) lits.now }
    ensures { codes.new.items ≡ codes.old.items ++ lits.now }
{
    for lit in lits {
        codes.push_reserved(lit.code() as u32);
    }
}

// The list at this place, counted from 0.
#[inline(always)]
#[tactic(auto, using(clause_pool::proofs::RegionLaws::start_within, clause_pool::proofs::RegionLaws::start_below, clause_pool::proofs::RegionLaws::region_get, clause_pool::proofs::RegionLaws::region_last))]
fn list_at<'a>(codes: &'a [u32], starts: &[u32], at: usize) -> &'a [u32]
    requires region { IsRegion starts.now (length codes.now) }
    requires within { at < length starts.now }
    ensures { result.now ≡ slice_index_or (region starts.now codes.now) at [] }
{
    let start = starts[at] as usize;
    if at + 1 < starts.len() {
        &codes[start..starts[at + 1] as usize]
    } else {
        &codes[start..]
    }
}
