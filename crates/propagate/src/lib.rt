//! Unit propagation over a growing list of clauses: what has to be true, once some literals are assumed.
#![tactic(auto)]

mod assignment;
mod attach;
mod clause_store;
mod engine;
mod plain;
mod visit;
mod watch;
mod watch_lists;
mod watches;

pub use engine::Engine;
