//! Which entries are met by a set that is told by a truth value for each code, so that codes can be taken out of it. They are hints:
//! nothing is claimed of them.

use crate::entries::Entry;
use book_model::{Book, Demand};
use pb_base::{CodeSet, Formula, Memory, Node};
use std::alloc::Global;

/// The truth values of a set.
pub(crate) fn values_of(alloc: Global, set: &CodeSet) -> Result<Vec<bool>, Memory> {
    let mut values = vec![in alloc; false; set.len() as usize]?;
    for code in 0..set.len() {
        if set.has(code) {
            flip(&mut values, code);
        }
    }
    Ok(values)
}

/// Puts a code in, or takes it out.
pub(crate) fn flip(values: &mut [bool], code: u32) {
    if let Some(value) = values.get_mut(code as usize) {
        *value = !*value;
    }
}

/// Whether an entry that is active is met.
pub(crate) fn is_met(book: &Book, values: &[bool], entry: Entry) -> bool {
    match entry {
        Entry::Supplement(place) => match book.supplements().get(place as usize) {
            Some(one) => is_there(values, one.code) || !holds(&one.rule, values),
            None => true,
        },
        Entry::Construct(place) => match book.constructs().get(place as usize) {
            Some(one) => is_demand_met(&one.demand, values),
            None => true,
        },
        Entry::Chosen(code) => is_there(values, code),
    }
}

fn is_demand_met(demand: &Demand, values: &[bool]) -> bool {
    match demand {
        Demand::Rule { on: None, rule } => holds(rule, values),
        Demand::Rule {
            on: Some(code),
            rule,
        } => !is_there(values, *code) || holds(rule, values),
        Demand::One(group) => count_there(values, group.codes()) == 1,
        Demand::Most(group) => count_there(values, group.codes()) <= 1,
    }
}

fn is_there(values: &[bool], code: u32) -> bool {
    values.get(code as usize) == Some(&true)
}

fn count_there(values: &[bool], codes: &[u32]) -> usize {
    let mut count = 0;
    for code in codes {
        if is_there(values, *code) && count < 2 {
            count += 1;
        }
    }
    count
}

fn holds(rule: &Formula, values: &[bool]) -> bool {
    let nodes = rule.nodes();
    let mut value = false;
    let mut left = nodes.len();
    while left > 0 {
        let mut skip = 0;
        match nodes[nodes.len() - left] {
            Node::Code(code) => value = is_there(values, code),
            Node::Not => value = !value,
            Node::WhenTrue(size) => {
                if !value {
                    skip = size as usize;
                }
            }
            Node::WhenFalse(size) => {
                if value {
                    skip = size as usize;
                }
            }
            Node::And(_) => {}
            Node::Or(_) => {}
            Node::Yes => value = true,
            Node::No => value = false,
        }
        left = (left - 1).saturating_sub(skip);
    }
    value
}
