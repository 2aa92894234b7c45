//! What is told of the codes of an order.

use blame::Blamed;
use clause_pool::Pool;
use pb_base::CodeSet;

/// Codes that some car has together, by their places in the book, counted from 0. None of the others can be put to them.
#[derive(Drop)]
pub struct Stay {
    /// In the sequence in which they were given.
    pub kept: Vec<u32>,
    /// A car of the day that has them.
    pub car: CodeSet,
}

/// Which codes stay.
#[derive(Drop)]
pub enum Staying {
    /// These do.
    Codes(Stay),
    /// There is no car on the day at all.
    NoCar,
    /// A search was left when these clauses had been learnt, as many as the budget allows.
    Undecided(Pool),
}

/// Whether codes stay together.
#[derive(Drop)]
pub enum Together {
    /// This car of the day has them all.
    Car(CodeSet),
    /// No car has. These are to blame, and so many of the codes stay.
    Apart(Blamed, Staying),
    /// A search was left when these clauses had been learnt, as many as the budget allows.
    Undecided(Pool),
}
