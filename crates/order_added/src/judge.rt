//! Whether an order is accepted, without its parts list.
ghost use Rattle.std.specs.Prelude.{◌≡◌, ◌++◌, IfOk, OnOk, None, Some, cond, true, false, length};
ghost use Rattle.order_added.specs.Judging.{passes_set, passes_with, is_buildable, is_new, with_codes};

use crate::demanding::Demanding;
use crate::settled::supplied_codes;
use book_model::Book;
use parts_usage::{GuardTable, first_unfit};
use pb_base::{CodeSet, Day, Memory};
use std::alloc::Global;
use std::marker::Model;
use supplement::Completer;

/// Judges what is added to an order of one book and day. Codes are told by their places in the book.
#[derive(Drop)]
pub(crate) struct Judge<'a> {
    book: &'a Book,
    day: Day,
    ordered: CodeSet,
    completer: Completer<'a>,
    guards: GuardTable,
    supplied: CodeSet,
    demanding: Demanding,
    positions: bool,
}

impl<'a> Model for Judge<'a> {
    ghost use Rattle.std.specs.Prelude.{◌≡◌, length};
    ghost use Rattle.parts_usage.specs.Broken.{guards_of};
    ghost use Rattle.order_added.specs.Judging.{Judging, judging_code};
    ghost use Rattle.order_added.specs.Settled.{AreSupplied};

    ghost Value = { Judging };

    ghost coded = { judging_code };

    ghost view = { λ j. record { book = j.book.now; day = j.day; ordered = j.ordered; positions = j.positions } };

    ghost invariant = { λ j.
        (length j.ordered ≡ length j.book.now.codes)
        × (j.completer ≡ record { book = j.book.now; day = j.day })
        × (j.guards ≡ guards_of j.book.now)
        × AreSupplied j.book.now.supplements j.supplied };
}

impl<'a> Judge<'a> {
    /// By the rules and the positions, as an order is judged that is placed. The set is that of the order's own codes.
    pub(crate) fn new(
        alloc: Global,
        book: &'a Book,
        day: Day,
        ordered: CodeSet,
    ) -> Result<Judge<'a>, Memory>
        requires { length ordered ≡ length book.now.codes }
        ensures { IfOk result (λ j. j ≡ record { book = book.now; day = day; ordered = ordered; positions = true }) }
    {
        let completer = Completer::new(alloc, book, day)?;
        let guards = GuardTable::of(alloc, book)?;
        let supplied = supplied_codes(alloc, book)?;
        Ok(Judge {
            book,
            day,
            ordered,
            completer,
            guards,
            supplied,
            demanding: Demanding::none(alloc),
            positions: true,
        })
    }

    /// From now on by the rules alone. Whatever breaks none of them fits each position, but for a book that can't be released.
    pub(crate) fn leave_positions(&mut self, alloc: Global) -> Result<(), Memory>
        ensures { let old = self.old in
            OnOk result (self.new ≡ record { book = old.book; day = old.day; ordered = old.ordered; positions = false }) }
    {
        self.demanding = Demanding::of(alloc, self.book)?;
        self.positions = false;
        Ok(())
    }

    /// From now on by the positions too.
    pub(crate) fn count_positions(&mut self)
        ensures { let old = self.old in
            self.new ≡ record { book = old.book; day = old.day; ordered = old.ordered; positions = true } }
    {
        self.positions = true;
    }

    /// Whether the order passes with the codes at these places, and at those. The rules that may be broken by the want of codes that
    /// were just taken out are tried first, over the order as it stands.
    pub(crate) fn passes(
        &self,
        alloc: Global,
        these: &[u32],
        those: &[u32],
        taken: &[u32],
    ) -> Result<bool, Memory>
        ensures { IfOk result (λ passed. passed ≡ passes_with self.now (these.now ++ those.now)) }
    {
        let mut set = self.ordered.copy(alloc)?;
        if put_both(&mut set, these, those) {
            self.passes_ordered(alloc, taken, set)
        } else {
            Ok(false)
        }
    }

    // Whether an order of just these codes passes.
    fn passes_ordered(&self, alloc: Global, taken: &[u32], set: CodeSet) -> Result<bool, Memory>
        requires { length set ≡ length self.now.book.codes }
        ensures { IfOk result (λ passed. passed ≡ passes_set self.now (Some set)) }
    {
        let broken = self
            .demanding
            .breaks_one(self.book, self.day, taken, &self.supplied, &set);
        if broken {
            return Ok(false);
        }
        self.passes_completed(alloc, set)
    }

    // The same once its set is completed.
    fn passes_completed(&self, alloc: Global, set: CodeSet) -> Result<bool, Memory>
        requires { length set ≡ length self.now.book.codes }
        ensures { IfOk result (λ passed. passed ≡ passes_set self.now (Some set)) }
    {
        let completed = self.completer.complete(alloc, set)?;
        let passed = self.is_buildable(&completed.set);
        Ok(passed)
    }

    // Whether a completed set breaks no rule and fits each position, where these count.
    fn is_buildable(&self, set: &CodeSet) -> bool
        requires { length set.now ≡ length self.now.book.codes }
        ensures { result ≡ is_buildable self.now set.now }
    {
        if self.guards.first_broken(self.book, self.day, set).is_some() {
            return false;
        }
        !self.positions || first_unfit(self.book, self.day, set).is_none()
    }
}

// Puts the codes at these places into a set, and those. Whether each of them was new.
fn put_both(set: &mut CodeSet, these: &[u32], those: &[u32]) -> bool
    ensures put { with_codes set.old (these.now ++ those.now) ≡ cond result (Some set.new) None }
    ensures same_codes { length set.new ≡ length set.old }
{
    if !put_all(set, these) {
        return false;
    }
    put_all(set, those)
}

fn put_all(set: &mut CodeSet, places: &[u32]) -> bool
    ensures put { with_codes set.old places.now ≡ cond result (Some set.new) None }
    ensures same_codes { length set.new ≡ length set.old }
{
    for place in places {
        if !is_new(set, *place) {
            return false;
        }
        set.with(*place);
    }
    true
}

// Whether this is the place of a code that isn't in a set.
fn is_new(set: &CodeSet, place: u32) -> bool
    ensures { result ≡ is_new set.now place }
{
    place < set.len() && !set.has(place)
}
