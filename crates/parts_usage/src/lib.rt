//! What an order comes to against a book: the rule that refuses it, the position that doesn't fit, or its parts list.
#![tactic(auto)]

mod broken;
mod fault;
mod guard_table;
mod judgement;
mod order;
mod ordered;
mod parts_list;
mod selected;
mod unfit;

pub use broken::first_broken;
pub use fault::OrderFault;
pub use guard_table::GuardTable;
pub use judgement::Outcome;
pub use order::outcome;
pub use ordered::{faultless_set, find_ordered_set, ordered_set};
pub use parts_list::{Line, PartsList, select};
pub use unfit::{Unfit, first_unfit};
