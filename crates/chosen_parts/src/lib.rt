//! The parts that stand at a position of the parts list, whatever the variants are called, so that two books can be compared.
#![tactic(auto)]

mod chosen;
mod part_use;
mod place;
mod same;

pub use chosen::chosen_variant;
pub use part_use::{PartUse, same_use};
pub use place::place_of_position;
pub use same::same_parts;
