//! The plain things that every crate of partsbook speaks of: names, formulas over codes, sets of codes, and what a call answers that may want memory.
#![tactic(auto)]

mod answer;
mod code_set;
mod code_table;
mod day;
mod digits;
mod formula;
mod hints;
mod leaves;
pub mod limits;
mod lines;
mod named_set;
mod names;
mod node;
mod padded;
mod part;
mod places;
mod sequence;
mod set_names;
mod table;
mod text;

pub use answer::{Fail, Memory};
pub use code_set::CodeSet;
pub use code_table::CodeTable;
pub use day::Day;
pub use digits::{number_within, short_number};
pub use formula::Formula;
pub use leaves::{Leaves, Present, Renamed};
pub use lines::{put_days, put_number, put_optional};
pub use named_set::NameFault;
pub use names::{CodeName, Id, Part, is_name_byte};
pub use node::{Leaf, Node};
pub use part::{FormulaPart, Shape};
pub use sequence::{Body, CodeList, Sequence};
pub use set_names::put_names;
pub use table::Table;
pub use text::Text;
