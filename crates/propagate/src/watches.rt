//! The clauses with what each watches.
ghost use Rattle.std.specs.Prelude.{◌≡◌, ◌^◌, ◌<◌, All, [], ℕ, length, IfOk, OnOk, OnErr};
ghost use Rattle.propagate.specs.Trail.{AreLiterals};
ghost use Rattle.propagate.specs.Watching.{IsWatching, EntryFits, IsPairIn, AreApart, IsOneOf, Shifted, Watches, IsListed, IsEntryAt, HasAt, clause_at, pair_of, no_pair, list_of};
ghost use Rattle.propagate.specs.Attaching.{Attached};

use crate::clause_store::ClauseStore;
use crate::watch::{ShortWatch, Watch, Watched};
use crate::watch_lists::{WatchLists, rooms_for};
use clause_pool::{Lit, Pool, make_room};
use pb_base::Memory;
use std::alloc::Global;
use std::marker::Model;

/// The attached clauses, the two literals that each watches, and for each literal the entries of those that
/// watch it.
#[derive(Drop)]
pub(crate) struct WatchedClauses {
    store: ClauseStore,
    watched: Vec<Watched>,
    lists: WatchLists,
}

impl Model for WatchedClauses {
    ghost use Rattle.propagate.specs.Watching.{Watching, IsWatching};

    ghost Value = { Watching };

    ghost view = { λ w. record { clauses = w.store; watched = w.watched.items; lists = w.lists } };

    ghost invariant = { λ w.
        IsWatching (record { clauses = w.store; watched = w.watched.items; lists = w.lists }) };
}

impl WatchedClauses {
    /// No clauses, and an empty list for each of so many literals.
    pub(crate) fn new(alloc: Global, literals: usize) -> Result<WatchedClauses, Memory>
        ensures clauses { IfOk result (λ w. w.clauses ≡ []) }
        ensures lists { IfOk result (λ w. length w.lists ≡ literals) }
    {
        Ok(WatchedClauses {
            store: ClauseStore::new(alloc),
            watched: Vec::new(alloc),
            lists: WatchLists::new(alloc, literals)?,
        })
    }

    /// Makes the room that the clauses of a pool need, before any clause is there.
    pub(crate) fn lay_out(&mut self, pool: &Pool) -> Result<(), Memory>
        ensures { self.new ≡ self.old }
    {
        if self.store.len() > 0 {
            return Ok(());
        }
        let alloc = *self.watched.allocator();
        let rooms = rooms_for(alloc, pool, self.lists.len())?;
        self.lists = WatchLists::with_rooms(alloc, &rooms)?;
        Ok(())
    }

    /// The number of clauses.
    pub(crate) fn count(&self) -> usize
        ensures { result ≡ length self.now.clauses }
    {
        self.store.len()
    }

    /// The entries of a literal.
    #[inline(always)]
    pub(crate) fn entries(&self, code: u32) -> &[ShortWatch]
        requires { code < length self.now.lists }
        ensures entries { result.now ≡ list_of self.now code }
        ensures watching { IsWatching self.now }
    {
        self.lists.entries(code)
    }

    /// An entry of a literal.
    #[inline(always)]
    pub(crate) fn entry(&self, code: u32, at: usize) -> Watch
        requires list { code < length self.now.lists }
        requires there { at < length (list_of self.now code) }
        ensures entry { IsEntryAt self.now code at result }
        ensures fits { EntryFits self.now code result }
        ensures watching { IsWatching self.now }
    {
        self.lists.entry(code, at)
    }

    /// The literals of a clause.
    #[inline(always)]
    pub(crate) fn codes(&self, clause: u32) -> &[u32]
        requires { clause < length self.now.clauses }
        ensures codes { result.now ≡ clause_at self.now.clauses clause }
        ensures below { AreLiterals result.now (length self.now.lists) }
    {
        self.store.codes(clause)
    }

    /// What a clause watches beside this literal.
    #[inline(always)]
    pub(crate) fn other_of(&self, clause: u32, code: u32) -> u32
        requires { clause < length self.now.clauses }
        ensures pair { IsOneOf (pair_of self.now clause) result }
        ensures other { AreApart (pair_of self.now clause) → result ≡ code → ⊥ }
    {
        let pair = &self.watched[clause as usize];
        if pair.first == code {
            pair.second
        } else {
            pair.first
        }
    }

    /// A further clause, which has no entries. On want of memory nothing changes.
    pub(crate) fn push_plain(&mut self, lits: &[Lit]) -> Result<(), Memory>
        requires below { AreLiterals lits.now (length self.old.lists) }
        requires small { All (λ l. l < 2 ^ 32) lits.now }
        ensures attached { OnOk result (Attached self.old self.new lits.now no_pair) }
        ensures err { OnErr result (self.new ≡ self.old) }
    {
        make_room(&mut self.watched, 1)?;
        self.store.push(lits)?;
        let pair = Watched {
            first: 0,
            second: 0,
        };
        self.watched.push(pair).unwrap();
        Ok(())
    }

    /// A further clause, which watches these two of its literals. On want of memory nothing changes.
    pub(crate) fn push_pair(&mut self, lits: &[Lit], pair: Watched) -> Result<(), Memory>
        requires below { AreLiterals lits.now (length self.old.lists) }
        requires small { All (λ l. l < 2 ^ 32) lits.now }
        requires pair { IsPairIn lits.now pair }
        requires place { length self.old.clauses < 2 ^ 32 }
        ensures attached { OnOk result (Attached self.old self.new lits.now pair) }
        ensures first { OnOk result (IsListed self.new pair.first (length self.old.clauses)) }
        ensures second { OnOk result (IsListed self.new pair.second (length self.old.clauses)) }
        ensures err { OnErr result (self.new ≡ self.old) }
    {
        let clause = self.store.len() as u32;
        if clause >= 1 << 31 {
            return Err(Memory);
        }
        let is_binary = lits.len() == 2;
        make_room(&mut self.watched, 1)?;
        self.store.push(lits)?;
        let first = ShortWatch::of(Watch {
            clause,
            blocker: pair.second,
            is_binary,
        });
        let second = ShortWatch::of(Watch {
            clause,
            blocker: pair.first,
            is_binary,
        });
        let Ok(()) = self.lists.push_two(pair.first, first, pair.second, second) else {
            self.store.pop();
            return Err(Memory);
        };
        self.watched.push_reserved(pair);
        Ok(())
    }

    /// A clause watches this literal in place of the one of whose list its entry is. On want of memory
    /// nothing changes.
    #[inline(always)]
    pub(crate) fn shift(
        &mut self,
        code: u32,
        at: usize,
        other: u32,
        fresh: u32,
    ) -> Result<(), Memory>
        requires list { code < length self.old.lists }
        requires there { at < length (list_of self.old code) }
        requires fresh_list { fresh < length self.old.lists }
        requires other_in { HasAt self.old code at other }
        requires fresh_in { HasAt self.old code at fresh }
        requires apart { other ≡ fresh → ⊥ }
        requires not_code { fresh ≡ code → ⊥ }
        requires other_not_code { other ≡ code → ⊥ }
        ensures shifted { OnOk result (Shifted self.old self.new code at) }
        ensures watches { OnOk result ((e : Watch) → IsEntryAt self.old code at e
            → Watches self.old self.new e.clause other fresh) }
        ensures err { OnErr result (self.new ≡ self.old) }
    {
        let clause = self.lists.entries(code)[at].watch().clause;
        let entry = ShortWatch::of(Watch {
            clause,
            blocker: other,
            is_binary: false,
        });
        self.lists.push(fresh, entry)?;
        self.lists.remove(code, at);
        let pair = &mut self.watched[clause as usize];
        pair.first = other;
        pair.second = fresh;
        Ok(())
    }
}
