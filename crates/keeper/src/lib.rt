//! What the order desk keeps: the rows of its store, the trait of what keeps them, a keeper in memory, and how a keeper over a store counts its failures.
#![tactic(auto)]

mod counting;
mod keeper;
mod keyed;
mod memory_keeper;
mod rows;
mod table;

pub use counting::counted;
pub use keeper::Keeper;
pub use memory_keeper::MemoryKeeper;
pub use rows::{BookRow, DraftRow, OrderRow, Rows};
