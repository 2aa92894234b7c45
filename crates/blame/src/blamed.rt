//! What is told of a rule.

use crate::entries::Entry;
use clause_pool::Pool;
use pb_base::CodeSet;

/// Entries of which no set that meets them all meets the rule.
#[derive(Drop)]
pub struct Blamed {
    /// Supplementing rules first, then constructibility rules, each in record order, then codes in the order in which they were
    /// given.
    pub entries: Vec<Entry>,
    /// For each entry, whether it was shown to be needed. Where it wasn't, a search without it was left.
    pub needed: Vec<bool>,
}

/// Whether a car meets a rule.
#[derive(Drop)]
pub enum Told {
    /// This one does.
    Car(CodeSet),
    /// None does, and these are to blame.
    NoCar(Blamed),
    /// The search for a car was left when these clauses had been learnt, as many as the budget allows.
    Undecided(Pool),
}
