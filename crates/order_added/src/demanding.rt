//! The rules that may be broken where a code is missing.
ghost use Rattle.std.specs.Prelude.{◌≡◌, length, true, false};
ghost use Rattle.std.specs.Option.{is_none};
ghost use Rattle.order_added.specs.Settled.{AreSupplied, broken_after};

use crate::settled::stays_broken;
use book_model::{Book, Demand};
use pb_base::{CodeSet, Day, Memory, Node};
use std::alloc::Global;

/// For each code the places of the constructibility rules that may be broken by the want of it. Nothing rests on them.
#[derive(Drop)]
pub(crate) struct Demanding {
    // Where the rules of each code begin. Those of the next code begin where they end.
    starts: Vec<u32>,
    rules: Vec<u32>,
}

// A code, and a rule that may be broken by the want of it.
#[derive(Clone, Copy)]
struct Want {
    code: u32,
    rule: u32,
}

impl Demanding {
    /// No rule is known of.
    pub(crate) fn none(alloc: Global) -> Demanding {
        Demanding {
            starts: Vec::new(alloc),
            rules: Vec::new(alloc),
        }
    }

    /// Those of a book.
    pub(crate) fn of(alloc: Global, book: &Book) -> Result<Demanding, Memory> {
        let wants = wants_of(alloc, book)?;
        let mut starts = ends_of(alloc, book.codes().len(), &wants)?;
        let rules = put_by_codes(alloc, &mut starts, &wants)?;
        Ok(Demanding { starts, rules })
    }

    /// Whether a set breaks one of the rules of these codes, whatever the supplementing rules add to it. It may
    /// break others where it doesn't.
    pub(crate) fn breaks_one(
        &self,
        book: &Book,
        day: Day,
        codes: &[u32],
        supplied: &CodeSet,
        set: &CodeSet,
    ) -> bool
        requires supplied { AreSupplied book.now.supplements supplied.now }
        requires codes { length set.now ≡ length book.now.codes }
        ensures { result ≡ true → is_none (broken_after book.now day set.now) ≡ false }
    {
        for code in codes {
            if self.breaks_one_of(book, day, *code, supplied, set) {
                return true;
            }
        }
        false
    }

    // The same of this code.
    fn breaks_one_of(
        &self,
        book: &Book,
        day: Day,
        code: u32,
        supplied: &CodeSet,
        set: &CodeSet,
    ) -> bool
        requires supplied { AreSupplied book.now.supplements supplied.now }
        requires codes { length set.now ≡ length book.now.codes }
        ensures { result ≡ true → is_none (broken_after book.now day set.now) ≡ false }
    {
        for rule in self.rules_of(code as usize) {
            if is_broken(book, day, *rule, supplied, set) {
                return true;
            }
        }
        false
    }

    fn rules_of(&self, code: usize) -> &[u32] {
        match self.rules.get(
            start_at(&self.starts, code)..start_at(&self.starts, code.wrapping_add(1)),
        ) {
            Some(rules) => rules,
            None => &[],
        }
    }
}

fn start_at(starts: &[u32], code: usize) -> usize {
    match starts.get(code) {
        Some(start) => *start as usize,
        None => 0,
    }
}

// Each code with each rule, in the sequence of the rules.
fn wants_of(alloc: Global, book: &Book) -> Result<Vec<Want>, Memory> {
    let mut wants = Vec::new(alloc);
    for (place, construct) in book.constructs().iter().enumerate() {
        note(&mut wants, &construct.demand, place as u32)?;
    }
    Ok(wants)
}

fn note(wants: &mut Vec<Want>, demand: &Demand, rule: u32) -> Result<(), Memory> {
    match demand {
        Demand::Rule { rule: formula, .. } => note_nodes(wants, formula.nodes(), rule),
        Demand::One(group) => note_all(wants, group.codes(), rule),
        Demand::Most(_) => Ok(()),
    }
}

fn note_all(wants: &mut Vec<Want>, codes: &[u32], rule: u32) -> Result<(), Memory> {
    for code in codes {
        wants.push(Want { code: *code, rule })?;
    }
    Ok(())
}

// Where the whole formula is negated, these are the codes that are negated in it, and else those that aren't.
fn note_nodes(wants: &mut Vec<Want>, nodes: &[Node], rule: u32) -> Result<(), Memory> {
    let negated = is_not_at(nodes, nodes.len().wrapping_sub(1));
    for (at, node) in nodes.iter().enumerate() {
        if let Node::Code(code) = node
            && is_not_at(nodes, at.wrapping_add(1)) == negated
        {
            wants.push(Want { code: *code, rule })?;
        }
    }
    Ok(())
}

fn is_not_at(nodes: &[Node], at: usize) -> bool {
    match nodes.get(at) {
        Some(Node::Not) => true,
        _ => false,
    }
}

// Where the rules of each code end, when they lie one code behind another.
fn ends_of(alloc: Global, codes: u32, wants: &[Want]) -> Result<Vec<u32>, Memory> {
    let mut ends: Vec<u32> = vec![in alloc; 0; (codes as usize).wrapping_add(1)]?;
    for want in wants {
        if let Some(count) = ends.get_mut(want.code as usize) {
            *count = count.wrapping_add(1);
        }
    }
    add_up(&mut ends);
    Ok(ends)
}

fn add_up(ends: &mut [u32]) {
    let mut sum = 0u32;
    for end in ends.iter_mut() {
        sum = sum.wrapping_add(*end);
        *end = sum;
    }
}

// The rules of one code behind those of another, each code's from the last to the first. What was the end of a code's rules is their
// start then.
fn put_by_codes(alloc: Global, ends: &mut [u32], wants: &[Want]) -> Result<Vec<u32>, Memory> {
    let mut rules: Vec<u32> = vec![in alloc; 0; wants.len()]?;
    for want in wants {
        put(&mut rules, ends, *want);
    }
    Ok(rules)
}

fn put(rules: &mut [u32], ends: &mut [u32], want: Want) {
    if let Some(end) = ends.get_mut(want.code as usize) {
        *end = end.wrapping_sub(1);
        if let Some(rule) = rules.get_mut(*end as usize) {
            *rule = want.rule;
        }
    }
}

// Whether a set breaks the rule at a place, if there is one, whatever is added to it.
fn is_broken(book: &Book, day: Day, rule: u32, supplied: &CodeSet, set: &CodeSet) -> bool
    requires supplied { AreSupplied book.now.supplements supplied.now }
    requires codes { length set.now ≡ length book.now.codes }
    ensures { result ≡ true → is_none (broken_after book.now day set.now) ≡ false }
{
    match book.constructs().get(rule as usize) {
        Some(construct) => stays_broken(construct, day, supplied, set),
        None => false,
    }
}
