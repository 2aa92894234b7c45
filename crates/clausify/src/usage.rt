//! The usages of the active variants.

use clause_pool::Lit;

/// A variant, by its place in the book, with the literal of its formula.
#[derive(Clone, Copy)]
pub struct Usage {
    pub variant: u32,
    pub literal: Lit,
}
