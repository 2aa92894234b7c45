//! Requirements.

use pb_base::{Day, Formula, Id, Part};

/// The most requirements that a text may have.
pub const MOST_REQUIREMENTS: usize = 10_000;

/// What has to hold of every car on some days.
#[derive(Drop)]
pub struct Requirement {
    pub id: Id,
    pub claim: Claim,
    /// The first day and the last day on which it is asked. They may lie outside the book's term.
    pub from: Day,
    pub until: Day,
}

/// What is claimed of every car.
#[derive(Drop)]
pub enum Claim {
    /// It meets the formula.
    Meets(Formula),
    /// If it meets the formula, it has the part in its parts list.
    Uses { part: Part, rule: Formula },
}
