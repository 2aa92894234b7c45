//! The codes of an entry. They are hints: nothing is claimed of them.

use crate::entries::Entry;
use book_model::{Book, Demand};
use pb_base::{Formula, Memory, Node};

/// Puts the codes of an entry behind others.
pub(crate) fn push_codes(codes: &mut Vec<u32>, book: &Book, entry: Entry) -> Result<(), Memory> {
    match entry {
        Entry::Supplement(place) => {
            if let Some(supplement) = book.supplements().get(place as usize) {
                codes.push(supplement.code)?;
                push_formula(codes, &supplement.rule)?;
            }
        }
        Entry::Construct(place) => {
            if let Some(construct) = book.constructs().get(place as usize) {
                push_demand(codes, &construct.demand)?;
            }
        }
        Entry::Chosen(code) => codes.push(code)?,
    }
    Ok(())
}

fn push_demand(codes: &mut Vec<u32>, demand: &Demand) -> Result<(), Memory> {
    match demand {
        Demand::Rule { on: None, rule } => push_formula(codes, rule)?,
        Demand::Rule {
            on: Some(code),
            rule,
        } => {
            codes.push(*code)?;
            push_formula(codes, rule)?;
        }
        Demand::One(group) => codes.extend_from_slice(group.codes())?,
        Demand::Most(group) => codes.extend_from_slice(group.codes())?,
    }
    Ok(())
}

fn push_formula(codes: &mut Vec<u32>, rule: &Formula) -> Result<(), Memory> {
    for node in rule.nodes() {
        if let Node::Code(code) = node {
            codes.push(*code)?;
        }
    }
    Ok(())
}
