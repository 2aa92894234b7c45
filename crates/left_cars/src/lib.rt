//! What can still be chosen beside some codes of a book: which codes every car that is left has, which none has, and which are open.
#![tactic(auto)]

mod asking;
mod free;
mod hints;
mod seen;
mod states;

pub use free::{free_codes, free_counted};
pub use states::{CodeState, Freedom};
