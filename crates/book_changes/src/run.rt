//! What is told of a run of days.

use book_model::Slice;
use chosen_parts::PartUse;
use lost_cars::LossNote;
use pb_base::{CodeList, Id};

/// Whether some set of names is a car of both books.
#[derive(Drop)]
pub enum Common {
    /// One is.
    Shared,
    /// None is.
    Nowhere,
    /// The search for one was left when as many clauses had been learnt as the budget allows.
    Undecided,
}

/// A note on a position.
#[derive(Drop)]
pub enum DifferNote {
    /// A car with these codes, which both books allow, gets other parts there: what the first book selects, and what the second does.
    Differs {
        position: Id,
        set: CodeList,
        has: Option<PartUse>,
        next: Option<PartUse>,
    },
    /// The search for such a car was left when as many clauses had been learnt as the budget allows.
    Undecided {
        position: Id,
    },
}

/// What changes on a run of days on which neither book changes.
#[derive(Drop)]
pub struct RunNotes {
    pub days: Slice,
    pub common: Common,
    /// The cars of the first book that the second loses.
    pub lost: Vec<LossNote>,
    /// The cars of the second book that the first loses.
    pub won: Vec<LossNote>,
    /// Whether the active supplementing rules, in the sequence in which they would fire, aren't the same by the names of codes.
    pub added: bool,
    /// The positions at which a car that both allow gets other parts.
    pub differs: Vec<DifferNote>,
}
