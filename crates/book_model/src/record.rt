//! The records of a book. Places are counted from 0 in the order of a book's text; days are inclusive at both ends.

use crate::demand::Demand;
use pb_base::{Day, Formula, Id, Part};

/// A supplementing rule: where it is active and its formula is true, its code is added to an order that lacks it.
#[derive(Drop)]
pub struct Supplement {
    pub id: Id,
    /// Rules fire by rank, the lowest first.
    pub rank: u32,
    /// The place of the code that is added.
    pub code: u32,
    pub rule: Formula,
    pub from: Day,
    pub until: Day,
}

/// A constructibility rule, which is a rule of a code, a rule of no code or a group of codes: where it is active, its demand has to be met.
#[derive(Drop)]
pub struct Construct {
    pub id: Id,
    pub demand: Demand,
    pub from: Day,
    pub until: Day,
}

/// A module, which groups positions of the parts list.
#[derive(Drop)]
pub struct Module {
    pub id: Id,
}

/// A position of the parts list, of which an order selects variants.
#[derive(Drop)]
pub struct Position {
    pub id: Id,
    /// The place of the module that it stands in, if it stands in one.
    pub module: Option<u32>,
    /// Whether exactly one variant has to be selected, and not at most one.
    pub mandatory: bool,
    pub from: Day,
    pub until: Day,
}

/// A variant of a position: the part that is used where it is active and its formula is true.
#[derive(Drop)]
pub struct Variant {
    pub id: Id,
    /// The place of its position.
    pub position: u32,
    pub part: Part,
    /// How many of the part are used, 1 to 999.
    pub quantity: u32,
    pub rule: Formula,
    pub from: Day,
    pub until: Day,
}

/// A run of days, both ends among them.
#[derive(Clone, Copy, Debug, PartialEq, Eq)]
pub struct Slice {
    pub first: Day,
    pub last: Day,
}
