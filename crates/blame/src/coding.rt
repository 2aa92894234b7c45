//! The clauses of entries and of a rule.
ghost use Rattle.std.specs.Prelude.{◌≡◌, ◌+◌, ◌^◌, ◌<◌, All, IfOk, OnOk, length};
ghost use Rattle.book_model.specs.Book.{DemandFits, RuleFits};
ghost use Rattle.clausify.specs.Encoding.{EncodesItem};
ghost use Rattle.clausify.specs.Formulas.{connectives};
ghost use Rattle.clausify.specs.Items.{demand_item};
ghost use Rattle.item_search.specs.Search.{IsEncoded, IsOver};
ghost use Rattle.blame.specs.Entries.{EntryFits, IsThere};
ghost use Rattle.blame.specs.Blame.{AreFew, blame_items, entry_item};

use crate::entries::Entry;
use book_model::{Book, Demand};
use clause_pool::{Lit, Ref};
use clausify::Encoder;
use item_search::solver_over;
use pb_base::{Day, Formula, Memory};
use solver::Solver;
use std::alloc::Global;

/// A solver over entries of a day and a rule. Where the clauses of each entry begin comes behind the other starts, and last where
/// those of the rule do.
pub(crate) fn begin(
    alloc: Global,
    book: &Book,
    day: Day,
    rule: &Formula,
    entries: &[Entry],
    starts: &mut Vec<Ref>,
) -> Result<Solver, Memory>
    requires fit { All (EntryFits book.now day) entries.now }
    requires few { AreFew entries.now }
    requires rule { RuleFits (length book.now.codes) rule.now }
    ensures { IfOk result (IsOver (length book.now.codes) (blame_items book.now entries.now rule.now)) }
{
    let encoder = coded(alloc, book, day, rule, entries, starts)?;
    let _codes = book.codes();
    solver_over(alloc, encoder)
}

// The clauses alone.
fn coded(
    alloc: Global,
    book: &Book,
    day: Day,
    rule: &Formula,
    entries: &[Entry],
    starts: &mut Vec<Ref>,
) -> Result<Encoder, Memory>
    requires fit { All (EntryFits book.now day) entries.now }
    requires few { AreFew entries.now }
    requires rule { RuleFits (length book.now.codes) rule.now }
    ensures truth { IfOk result (λ e. e.truth ≡ length book.now.codes) }
    ensures encoded { IfOk result (IsEncoded (blame_items book.now entries.now rule.now)) }
{
    let codes = book.codes();
    let mut encoder = Encoder::new(alloc, codes.len())?;
    for entry in entries {
        starts.push(encoder.pool.len())?;
        add_entry(&mut encoder, book, *entry)?;
    }
    starts.push(encoder.pool.len())?;
    encoder.rule_on(None, rule)?;
    Ok(encoder)
}

// What an entry asks.
fn add_entry(encoder: &mut Encoder, book: &Book, entry: Entry) -> Result<(), Memory>
    requires truth { encoder.old.truth ≡ length book.now.codes }
    requires there { IsThere book.now entry }
    requires room { encoder.old.next + connectives (entry_item book.now entry).rule < 2 ^ 32 }
    ensures { OnOk result (EncodesItem encoder.old encoder.new (entry_item book.now entry)) }
{
    match entry {
        Entry::Supplement(place) => add_supplement(encoder, book, place),
        Entry::Construct(place) => add_construct(encoder, book, place),
        Entry::Chosen(code) => encoder.clause(&[Lit::new(code, true)]),
    }
}

fn add_supplement(encoder: &mut Encoder, book: &Book, place: u32) -> Result<(), Memory>
    requires there { place < length book.now.supplements }
    requires room { let item = entry_item book.now (Entry.Supplement place) in
        encoder.old.next + connectives item.rule < 2 ^ 32 }
    ensures { OnOk result (EncodesItem encoder.old encoder.new (entry_item book.now (Entry.Supplement place))) }
{
    let supplements = book.supplements();
    let supplement = &supplements[place as usize];
    encoder.supplement(supplement.code, &supplement.rule)
}

fn add_construct(encoder: &mut Encoder, book: &Book, place: u32) -> Result<(), Memory>
    requires truth { encoder.old.truth ≡ length book.now.codes }
    requires there { place < length book.now.constructs }
    requires room { let item = entry_item book.now (Entry.Construct place) in
        encoder.old.next + connectives item.rule < 2 ^ 32 }
    ensures { OnOk result (EncodesItem encoder.old encoder.new (entry_item book.now (Entry.Construct place))) }
{
    let constructs = book.constructs();
    let construct = &constructs[place as usize];
    add_demand(encoder, &construct.demand)
}

fn add_demand(encoder: &mut Encoder, demand: &Demand) -> Result<(), Memory>
    requires fits { DemandFits encoder.old.truth demand.now }
    requires room { encoder.old.next + connectives (demand_item demand.now).rule < 2 ^ 32 }
    ensures { OnOk result (EncodesItem encoder.old encoder.new (demand_item demand.now)) }
{
    match demand {
        Demand::Rule { on, rule } => encoder.rule_on(*on, rule),
        Demand::One(group) => {
            encoder.any_of(group.codes())?;
            encoder.apart(group.codes())
        }
        Demand::Most(group) => encoder.apart(group.codes()),
    }
}
