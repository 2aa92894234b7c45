//! What is so of codes beside the chosen ones.

use clause_pool::Pool;

/// What is so of a code, of all cars of the day that have the chosen codes.
#[derive(Drop)]
pub enum CodeState {
    /// It is one of the chosen codes.
    Ordered,
    /// Each of these cars has it.
    Forced,
    /// None of them has it.
    Excluded,
    /// One of them has it, and another hasn't.
    Open,
    /// The search for one that has it, or for one that hasn't, was left when these clauses had been learnt.
    Undecided(Pool),
}

/// What can still be chosen.
#[derive(Drop)]
pub enum Freedom {
    /// Nothing: no car has the chosen codes.
    NoneLeft,
    /// Whether some car has the chosen codes was left when these clauses had been learnt.
    NotDecided(Pool),
    /// Some car has them, and each code of the book, in record order, has its state.
    Codes(Vec<CodeState>),
}
