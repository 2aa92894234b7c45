//! Clauses of propositional logic: literals, pools of clauses in one flat region, and the kernel that adds to given
//! clauses only what follows from them by resolution.
#![tactic(auto)]

mod chain;
mod checker;
mod in_order;
mod kernel;
mod lit;
mod pool;
mod region;
mod run;
mod running;
mod steps;

pub use chain::{Pair, ShortPair, StepFault};
pub use checker::Checker;
pub use kernel::Kernel;
pub use lit::Lit;
pub use pool::{Mark, Pool, Ref};
pub use region::make_room;
pub use running::push_marked;
