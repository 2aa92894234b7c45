//! Where clauses and literals of one kernel stand in another.

use clause_pool::{Lit, Ref};
use pb_base::Memory;
use std::alloc::Global;

/// Where the clauses of a kernel, and their literals, stand in another one.
pub trait PlaceMap {
    /// Where a clause stands now, if it does.
    fn place(&self, at: Ref) -> Option<Ref>;

    /// What a literal is now, if it has a variable.
    fn literal(&self, lit: Lit) -> Option<Lit>;

    /// Notes where the next clause stands now.
    fn put(&mut self, place: Option<Ref>) -> Result<(), Memory>;
}

/// Where the clauses of a kernel stand in one over the same given clauses, which keep their places, that derived some of them.
#[derive(Drop)]
pub struct Places {
    given: usize,
    derived: Vec<Option<u32>>,
}

impl Places {
    /// So many given clauses, and no derived ones.
    pub fn of(alloc: Global, given: usize) -> Places {
        Places {
            given,
            derived: Vec::new(alloc),
        }
    }
}

impl PlaceMap for Places {
    fn place(&self, at: Ref) -> Option<Ref> {
        if at < self.given {
            return Some(at);
        }
        match self.derived.get(at - self.given) {
            Some(Some(place)) => Some(*place as usize),
            _ => None,
        }
    }

    fn literal(&self, lit: Lit) -> Option<Lit> {
        Some(lit)
    }

    // A place of more than 32 bits isn't found again.
    fn put(&mut self, place: Option<Ref>) -> Result<(), Memory> {
        let place = match place {
            Some(at) => u32::try_from(at).ok(),
            None => None,
        };
        self.derived.push(place)?;
        Ok(())
    }
}
