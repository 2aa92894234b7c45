//! Positions that have to be searched.

use pb_base::Id;

/// The most variables that a position adds. In each book it has at most 200 variants, so that it has at most 400 keys, and each of
/// them takes at most 402.
pub(crate) const MOST_OF_POSITION: u32 = 160_801;

/// The most positions that share a solver. Each adds variables that a search has to give a value, also where it asks of another.
pub(crate) const MOST_TOGETHER: u32 = 16;

/// The position of an id, and a guess where it stands in the books.
#[derive(Clone, Copy)]
pub(crate) struct Place {
    pub(crate) id: Id,
    pub(crate) guess: usize,
}
