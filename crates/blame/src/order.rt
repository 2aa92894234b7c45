//! In which order it is tried to leave entries out. That is a hint: nothing is claimed of it.

use crate::used::use_counts;
use clause_pool::{Kernel, Ref};
use pb_base::Memory;
use std::alloc::Global;

/// The places of so many entries, the last one first.
pub(crate) fn from_the_last(alloc: Global, count: usize) -> Result<Vec<usize>, Memory> {
    let mut order = Vec::new(alloc);
    for place in (0..count).rev() {
        order.push(place)?;
    }
    Ok(order)
}

/// The same, those first of which the clause at a place of a kernel makes the least use. As a rule they can go, and what is tried behind
/// them is tried among fewer. The guard of the first entry is this variable.
pub(crate) fn least_used_first(
    alloc: Global,
    kernel: &Kernel,
    at: Ref,
    first: u32,
    count: usize,
) -> Result<Vec<usize>, Memory> {
    let counts = use_counts(alloc, kernel, at, first, count)?;
    let mut standings = Vec::new(alloc);
    for (place, used) in counts.iter().enumerate() {
        standings.push((*used, place))?;
    }
    standings.sort_unstable();
    let mut order = Vec::new(alloc);
    for (_, place) in &standings {
        order.push(*place)?;
    }
    Ok(order)
}
