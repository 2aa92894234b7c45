//! Packs of positions, which several workers share.
ghost use Rattle.std.specs.Prelude.{◌≡◌, ◌++◌, ◌<◌, ◌≤◌, IfOk, OnOk};
ghost use Rattle.std.specs.List.{AllZip, flat_map};
ghost use Rattle.pb_base.specs.declared.limits.TheConstants.{MOST_BUDGET};
ghost use Rattle.book_compare.specs.Comparing.{IsComparing};
ghost use Rattle.book_compare.specs.Comparison.{AreNoted};
ghost use Rattle.book_compare.specs.Packs.{IsAsked, notes_in, places_in};

use crate::comparing::Comparing;
use crate::note::CompareNote;
use crate::notes::notes_on;
use crate::place::{MOST_TOGETHER, Place};
use pb_base::{Memory, Sequence};
use shared_work::{Work, make_all};
use std::alloc::Global;
use std::thread::Threads;

/// Positions that share a solver, in order.
pub(crate) type Pack = Sequence<Place>;

// The notes on the positions of a pack, in order.
type PackNotes = Sequence<CompareNote>;

// Two books that are compared, each search with this budget. The notes on a pack are made of it.
#[derive(Clone, Copy)]
struct PackWork<'a> {
    comparing: &'a Comparing<'a>,
    budget: u32,
}

impl<'a> Work for PackWork<'a> {
    type Item = Pack;

    type Made = PackNotes;

    ghost IsReady = { λ w. IsAsked w.comparing.now w.budget };

    ghost IsGiven = { λ w p. Unit {0} };

    ghost IsMade = { λ w. let c = w.comparing.now in
        AreNoted c.first.now c.second.now c.day w.budget };

    fn make(&self, alloc: Global, packs: &[Pack]) -> Result<Vec<PackNotes>, Memory> {
        notes_on_each(alloc, self.comparing, self.budget, packs)
    }
}

/// The notes on these positions, in order, by so many workers. Each has a run of packs.
pub(crate) fn notes_by<R: Threads + Sync>(
    rt: &R,
    alloc: Global,
    comparing: &Comparing,
    budget: u32,
    places: &[Place],
    workers: u32,
) -> Result<Vec<CompareNote>, Memory>
    requires ready { IsComparing comparing.now }
    requires some { 0 < budget }
    requires most { budget ≤ MOST_BUDGET }
    requires workers { 0 < workers }
    ensures { let c = comparing.now in
        IfOk result (λ notes. AreNoted c.first.now c.second.now c.day budget places.now notes.items) }
{
    let packs = packs_of(alloc, places)?;
    let work = PackWork { comparing, budget };
    let each = make_all(rt, alloc, &work, &packs, workers)?;
    let notes = joined(alloc, each)?;
    Ok(notes)
}

// The positions in packs, each but the last with as many as share a solver.
fn packs_of(alloc: Global, places: &[Place]) -> Result<Vec<Pack>, Memory>
    ensures { IfOk result (λ packs. flat_map places_in packs.items ≡ places.now) }
{
    let mut packs = Vec::new(alloc);
    let mut at = 0;
    while at < places.len() {
        let end = at + (places.len() - at).min(MOST_TOGETHER as usize);
        let pack = Vec::from_slice(alloc, &places[at..end])?;
        packs.push(Sequence::of(pack))?;
        at = end;
    }
    Ok(packs)
}

// The notes on each of these packs.
fn notes_on_each(
    alloc: Global,
    comparing: &Comparing,
    budget: u32,
    packs: &[Pack],
) -> Result<Vec<PackNotes>, Memory>
    requires ready { IsComparing comparing.now }
    requires some { 0 < budget }
    requires most { budget ≤ MOST_BUDGET }
    ensures { let c = comparing.now in
        IfOk result (λ each. AllZip (AreNoted c.first.now c.second.now c.day budget) packs.now each.items) }
{
    let mut each = Vec::new(alloc);
    for pack in packs {
        let own = notes_on(alloc, comparing, budget, pack.as_slice())?;
        each.push(Sequence::of(own))?;
    }
    Ok(each)
}

// The notes on all packs, those on one behind those on the other.
fn joined(alloc: Global, each: Vec<PackNotes>) -> Result<Vec<CompareNote>, Memory>
    ensures { IfOk result (λ notes. notes.items ≡ flat_map notes_in each.items) }
{
    let mut notes = Vec::new(alloc);
    for own in each {
        add(&mut notes, own)?;
    }
    Ok(notes)
}

fn add(notes: &mut Vec<CompareNote>, more: PackNotes) -> Result<(), Memory>
    ensures { OnOk result (notes.new.items ≡ notes.old.items ++ more) }
{
    let mut own = more.into_items();
    notes.append(&mut own)?;
    Ok(())
}
