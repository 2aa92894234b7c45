//! The clauses of a slice of a book: satisfied by just the assignments that begin with a good set, each in one way.
#![tactic(auto)]

mod choices;
mod coding;
mod counting;
mod encoder;
mod goals;
mod group;
mod items;
mod joint;
mod layout;
mod parts;
mod question;
mod usage;

pub use choices::{is_active, usage_of, usages_of};
pub use coding::{LaidSlice, clauses_of, coded_slice, laid_slice};
pub use counting::question_count;
pub use encoder::{Encoded, Encoder};
pub use group::{add_any, add_apart};
pub use items::{add_constructs, add_rules};
pub use joint::{Joint, tie};
pub use layout::{Gate, Gates, Layout, Start};
pub use question::{Asked, Coded, Question};
pub use usage::Usage;
