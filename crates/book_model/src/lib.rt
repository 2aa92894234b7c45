//! A book of rules: its records, what it has to meet, and what it says of a day and a set of codes.
#![tactic(auto)]

mod activity;
mod book;
mod change_days;
mod demand;
mod good;
mod groups;
mod ids;
mod periods;
mod places;
mod record;
mod slicing;

pub use activity::active;
pub use book::{Book, BookParts};
pub use demand::Demand;
pub use good::{breaks, fires, is_good};
pub use groups::VariantGroups;
pub use ids::{code_name, construct_id, module_id, position_id, supplement_id, variant_id};
pub use places::Places;
pub use record::{Construct, Module, Position, Slice, Supplement, Variant};
pub use slicing::{LimitFault, SliceList, slices};
