//! What is told of an order. Codes, rules and positions are told by their places in the book, counted from 0.

use blame::Blamed;
use clause_pool::Pool;
use parts_usage::{Outcome, Unfit};
use pb_base::{CodeName, CodeSet};
use supplement::AddedList;

/// What is added to an order, what it comes to, and how it would be accepted.
#[derive(Drop)]
pub struct WhyAnswer {
    /// What the supplementing rules add, in the order of firing.
    pub added: AddedList,
    pub outcome: Outcome,
    pub repair: Repair,
}

/// How an order would be accepted.
#[derive(Drop)]
pub enum Repair {
    /// It is accepted as it stands.
    NotNeeded,
    /// A search for a car was left when these clauses had been learnt, as many as the budget allows.
    Undecided(Pool),
    /// No car can be ordered on the day at all. These rules and codes are to blame that none has the codes of the order.
    NoOrder(Blamed),
    /// Some of its codes are kept.
    Keep(Kept),
}

/// The codes of an order that are kept, and what is changed then.
#[derive(Drop)]
pub struct Kept {
    /// Where no car has all codes of the order: the rules and codes that are to blame.
    pub clash: Option<Blamed>,
    /// The codes that are kept, in their sequence.
    pub codes: Vec<u32>,
    /// The other codes of the order.
    pub left: Vec<u32>,
    pub change: Change,
}

/// What is changed beside the codes that are kept.
#[derive(Drop)]
pub enum Change {
    /// These codes are added, in record order. There are none where the kept codes are accepted as they stand.
    Add(Vec<CodeName>),
    /// The car that was found with the kept codes can't be built: this is its first position that doesn't fit. It is so only in a
    /// book that can't be released.
    Unfit { car: CodeSet, unfit: Unfit },
}
