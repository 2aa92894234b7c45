//! What a caller's answers depend on: that caller's own orders, the drafts and the books.
#![tactic(auto)]

mod laws;

pub use laws::caller_laws;
