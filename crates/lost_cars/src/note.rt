//! What is told of cars that another book loses.

use pb_base::{CodeName, CodeSet, Id};

/// Why the other book loses a car.
#[derive(Clone, Copy)]
pub enum Cause {
    /// Its rule of this id fires over the car, or is broken by it.
    Entry(Id),
    /// The car has this code, and the other book has none of that name.
    Code(CodeName),
}

/// A note on one cause.
#[derive(Drop)]
pub enum LossNote {
    /// This car is lost.
    Lost { cause: Cause, car: CodeSet },
    /// The search for a car that is lost was left when as many clauses had been learnt as the budget allows.
    Undecided { cause: Cause },
}
