//! The store of a run: of the kind that its name says, and with its orders counted for who looks on.
#![tactic(auto)]

mod counted;
mod store;
mod system;

pub use counted::Counted;
pub use store::Store;
pub use system::{FileStore, close, store_at};
