//! What a comparison of two books tells.

use clause_pool::Pool;
use pb_base::{CodeList, Id};

/// A note on a position.
#[derive(Drop)]
pub enum CompareNote {
    /// A car with these codes, which both books allow, gets other parts at the position: another part, another number of it, none
    /// where it had one, or one where it had none.
    Finding { position: Id, set: CodeList },
    /// The search was given up after these learnt clauses.
    Undecided { position: Id, learnt: Pool },
}

/// The book in whose term the day is not.
#[derive(Clone, Copy, Debug, PartialEq, Eq)]
pub enum Outside {
    First,
    /// The day is in the first book's term.
    Second,
}
