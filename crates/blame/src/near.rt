//! The rules that are near to codes: those in which one of them stands. And the rules that are linked with codes: those that are near to
//! them, or to the codes of others that are.
//!
//! As a rule codes clash by few near ones. They are looked at first, then the linked ones, and all rules only where these leave a set.
//! That is a hint.
ghost use Rattle.std.specs.Prelude.{IfOk};
ghost use Rattle.blame.specs.Entries.{Among};

use crate::codes::push_codes;
use crate::entries::{Entry, marked};
use crate::sets::set_of;
use book_model::{Book, Demand, Supplement};
use pb_base::{CodeSet, Formula, Memory, Node};
use std::alloc::Global;

/// Of entries the codes, and the rules that are near to chosen codes.
pub(crate) fn near_entries(
    alloc: Global,
    book: &Book,
    chosen: &[u32],
    entries: &[Entry],
) -> Result<Vec<Entry>, Memory>
    ensures { IfOk result (λ near. Among entries.now near.items) }
{
    let codes = set_of(alloc, book, chosen)?;
    let mut marks = Vec::new(alloc);
    for entry in entries {
        marks.push(is_near(book, &codes, *entry))?;
    }
    marked(alloc, entries, &marks)
}

/// Of entries the codes, and the rules that are linked with chosen codes. Where these are half of all entries or more, so many of them.
pub(crate) fn linked_entries(
    alloc: Global,
    book: &Book,
    chosen: &[u32],
    entries: &[Entry],
) -> Result<Vec<Entry>, Memory>
    ensures { IfOk result (λ linked. Among entries.now linked.items) }
{
    let mut codes = set_of(alloc, book, chosen)?;
    let mut marks = vec![in alloc; false; entries.len()]?;
    link(alloc, book, entries, &mut codes, &mut marks)?;
    marked(alloc, entries, &marks)
}

// Marks entries that are near to codes, and puts their codes to these, until nothing comes any more or half of all are marked.
fn link(
    alloc: Global,
    book: &Book,
    entries: &[Entry],
    codes: &mut CodeSet,
    marks: &mut [bool],
) -> Result<(), Memory> {
    let mut left = entries.len() / 2;
    while left > 0 {
        let after = link_once(alloc, book, entries, codes, marks, left)?;
        if after == left {
            return Ok(());
        }
        left = after.min(left - 1);
    }
    Ok(())
}

// The same once, for so many entries at most. How many more may come.
fn link_once(
    alloc: Global,
    book: &Book,
    entries: &[Entry],
    codes: &mut CodeSet,
    marks: &mut [bool],
    most: usize,
) -> Result<usize, Memory> {
    let mut left = most;
    for (place, entry) in entries.iter().enumerate() {
        if left > 0 && marks.get(place) == Some(&false) && is_near(book, codes, *entry) {
            mark(marks, place);
            put_codes(alloc, book, codes, *entry)?;
            left -= 1;
        }
    }
    Ok(left)
}

fn mark(marks: &mut [bool], place: usize) {
    if place < marks.len() {
        marks[place] = true;
    }
}

// Puts the codes of an entry to others.
fn put_codes(alloc: Global, book: &Book, codes: &mut CodeSet, entry: Entry) -> Result<(), Memory> {
    let mut own = Vec::new(alloc);
    push_codes(&mut own, book, entry)?;
    for code in &own {
        if *code < codes.len() {
            codes.with(*code);
        }
    }
    Ok(())
}

fn is_near(book: &Book, codes: &CodeSet, entry: Entry) -> bool {
    match entry {
        Entry::Supplement(place) => match book.supplements().get(place as usize) {
            Some(supplement) => is_added_near(codes, supplement),
            None => false,
        },
        Entry::Construct(place) => match book.constructs().get(place as usize) {
            Some(construct) => is_demand_near(codes, &construct.demand),
            None => false,
        },
        Entry::Chosen(_) => true,
    }
}

fn is_added_near(codes: &CodeSet, supplement: &Supplement) -> bool {
    is_among(codes, supplement.code) || stands_one_in(codes, &supplement.rule)
}

fn is_demand_near(codes: &CodeSet, demand: &Demand) -> bool {
    match demand {
        Demand::Rule { on: None, rule } => stands_one_in(codes, rule),
        Demand::Rule {
            on: Some(code),
            rule,
        } => is_among(codes, *code) || stands_one_in(codes, rule),
        Demand::One(group) => is_one_among(codes, group.codes()),
        Demand::Most(group) => is_one_among(codes, group.codes()),
    }
}

fn is_among(codes: &CodeSet, code: u32) -> bool {
    code < codes.len() && codes.has(code)
}

fn is_one_among(codes: &CodeSet, group: &[u32]) -> bool {
    group.iter().any(|code| is_among(codes, *code))
}

fn stands_one_in(codes: &CodeSet, rule: &Formula) -> bool {
    for node in rule.nodes() {
        if let Node::Code(code) = node {
            if is_among(codes, *code) {
                return true;
            }
        }
    }
    false
}
