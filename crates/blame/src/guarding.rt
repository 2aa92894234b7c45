//! A solver over entries, each of which holds where its guard is true: it serves all choices of them.
//!
//! The guard of an entry is the code behind those of the book that is so far behind them as the entry's place.
ghost use Rattle.std.specs.Prelude.{◌≡◌, ◌+◌, ◌^◌, ◌<◌, All, IfOk, OnOk, Some, length};
ghost use Rattle.book_model.specs.Book.{RuleFits};
ghost use Rattle.clausify.specs.Formulas.{connectives};
ghost use Rattle.guarded_rules.specs.Guarded.{guarded, EncodesGuarded};
ghost use Rattle.blame.specs.Entries.{EntryFits, IsThere};
ghost use Rattle.blame.specs.Blame.{AreFew, entry_item};
ghost use Rattle.blame.specs.Guards.{IsGuarding};
ghost use Rattle.blame.specs.Guarding.{AreFurther, IsMade, MayAdd, plain_entry};
ghost use Rattle.blame.specs.Plain.{AddsPlain, plain_rule};

use crate::deciding::solver_deciding;
use crate::entries::Entry;
use crate::plain::{add_plain_demand, is_plain_demand};
use crate::unused::deny_unused;
use book_model::Book;
use clause_pool::Lit;
use clausify::Encoder;
use guarded_rules::{add_guarded_demand, add_guarded_supplement};
use pb_base::{Day, Formula, Memory};
use solver::Solver;
use std::alloc::Global;

/// The solver, over a rule too, which always holds.
pub(crate) fn guarded_solver(
    alloc: Global,
    book: &Book,
    day: Day,
    rule: &Formula,
    entries: &[Entry],
) -> Result<Solver, Memory>
    requires fit { All (EntryFits book.now day) entries.now }
    requires few { AreFew entries.now }
    requires rule { RuleFits (length book.now.codes) rule.now }
    ensures { IfOk result (IsGuarding book.now day rule.now entries.now) }
{
    let codes = book.codes().len();
    let encoder = guarded(alloc, book, day, rule, entries)?;
    let solver = solver_deciding(alloc, encoder, codes)?;
    Ok(solver)
}

// The clauses alone.
fn guarded(
    alloc: Global,
    book: &Book,
    day: Day,
    rule: &Formula,
    entries: &[Entry],
) -> Result<Encoder, Memory>
    requires fit { All (EntryFits book.now day) entries.now }
    requires few { AreFew entries.now }
    requires rule { RuleFits (length book.now.codes) rule.now }
    ensures truth { IfOk result (λ e. e.truth ≡ length book.now.codes + length entries.now) }
    ensures made { IfOk result (IsMade book.now entries.now rule.now) }
{
    let codes = book.codes().len();
    let mut encoder = Encoder::new(alloc, codes + entries.len() as u32)?;
    for (place, entry) in entries.iter().enumerate() {
        add_unless_plain(&mut encoder, book, *entry, codes + place as u32)?;
    }
    encoder.rule_on(None, rule)?;
    add_plain_entries(alloc, &mut encoder, book, day, entries)?;
    deny_unused(alloc, &mut encoder, codes)?;
    Ok(encoder)
}

// What an entry asks where its guard is true, unless it is plain: then its clause is made later.
fn add_unless_plain(
    encoder: &mut Encoder,
    book: &Book,
    entry: Entry,
    guard: u32,
) -> Result<(), Memory>
    requires there { IsThere book.now entry }
    requires room { encoder.old.next + connectives (entry_item book.now entry).rule < 2 ^ 32 }
    ensures { let item = guarded (Some guard) (entry_item book.now entry) in
        OnOk result (MayAdd (plain_entry book.now entry) encoder.old encoder.new item) }
{
    if is_plain(book, entry) {
        return Ok(());
    }
    add_guarded(encoder, book, entry, guard)?;
    Ok(())
}

fn is_plain(book: &Book, entry: Entry) -> bool
    ensures { result ≡ plain_entry book.now entry }
{
    match entry {
        Entry::Supplement(_) => false,
        Entry::Construct(place) => match book.constructs().get(place as usize) {
            Some(construct) => is_plain_demand(&construct.demand),
            None => false,
        },
        Entry::Chosen(_) => false,
    }
}

// The clauses of the entries that are plain.
fn add_plain_entries(
    alloc: Global,
    encoder: &mut Encoder,
    book: &Book,
    day: Day,
    entries: &[Entry],
) -> Result<(), Memory>
    requires fit { All (EntryFits book.now day) entries.now }
    requires few { AreFew entries.now }
    ensures { OnOk result
        (AreFurther book.now entries.now (length entries.now) encoder.old encoder.new) }
{
    let codes = book.codes().len();
    for (place, entry) in entries.iter().enumerate() {
        add_plain(alloc, encoder, book, *entry, codes + place as u32)?;
    }
    Ok(())
}

fn add_plain(
    alloc: Global,
    encoder: &mut Encoder,
    book: &Book,
    entry: Entry,
    guard: u32,
) -> Result<(), Memory>
    requires there { IsThere book.now entry }
    ensures { let plain = plain_entry book.now entry in
        OnOk result (AddsPlain plain guard (entry_item book.now entry) encoder.old encoder.new) }
{
    match entry {
        Entry::Supplement(_) => Ok(()),
        Entry::Construct(place) => add_plain_construct(alloc, encoder, book, place, guard),
        Entry::Chosen(_) => Ok(()),
    }
}

fn add_plain_construct(
    alloc: Global,
    encoder: &mut Encoder,
    book: &Book,
    place: u32,
    guard: u32,
) -> Result<(), Memory>
    requires { place < length book.now.constructs }
    ensures { let item = entry_item book.now (Entry.Construct place) in
        OnOk result (AddsPlain (plain_rule item.rule) guard item encoder.old encoder.new) }
{
    let constructs = book.constructs();
    let construct = &constructs[place as usize];
    add_plain_demand(alloc, encoder, guard, &construct.demand)
}

// What an entry asks where its guard is true.
fn add_guarded(encoder: &mut Encoder, book: &Book, entry: Entry, guard: u32) -> Result<(), Memory>
    requires there { IsThere book.now entry }
    requires room { encoder.old.next + connectives (entry_item book.now entry).rule < 2 ^ 32 }
    ensures { let item = guarded (Some guard) (entry_item book.now entry) in
        OnOk result (EncodesGuarded encoder.old encoder.new item) }
{
    match entry {
        Entry::Supplement(place) => add_guarded_added(encoder, book, place, guard),
        Entry::Construct(place) => add_guarded_construct(encoder, book, place, guard),
        Entry::Chosen(code) => encoder.clause(&[Lit::new(guard, false), Lit::new(code, true)]),
    }
}

fn add_guarded_added(
    encoder: &mut Encoder,
    book: &Book,
    place: u32,
    guard: u32,
) -> Result<(), Memory>
    requires there { place < length book.now.supplements }
    requires room { let item = entry_item book.now (Entry.Supplement place) in
        encoder.old.next + connectives item.rule < 2 ^ 32 }
    ensures { let item = guarded (Some guard) (entry_item book.now (Entry.Supplement place)) in
        OnOk result (EncodesGuarded encoder.old encoder.new item) }
{
    let supplements = book.supplements();
    let supplement = &supplements[place as usize];
    add_guarded_supplement(encoder, Some(guard), supplement.code, &supplement.rule)
}

fn add_guarded_construct(
    encoder: &mut Encoder,
    book: &Book,
    place: u32,
    guard: u32,
) -> Result<(), Memory>
    requires there { place < length book.now.constructs }
    requires room { let item = entry_item book.now (Entry.Construct place) in
        encoder.old.next + connectives item.rule < 2 ^ 32 }
    ensures { let item = guarded (Some guard) (entry_item book.now (Entry.Construct place)) in
        OnOk result (EncodesGuarded encoder.old encoder.new item) }
{
    book.codes();
    let constructs = book.constructs();
    let construct = &constructs[place as usize];
    add_guarded_demand(encoder, Some(guard), &construct.demand)
}
