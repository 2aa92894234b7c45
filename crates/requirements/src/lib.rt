//! Reads requirements: what has to hold of every car of a book, stated apart from its rules.
#![tactic(auto)]

mod fault;
mod fault_text;
mod read;
mod requirement;
mod stated;

pub use fault::{RequirementFault, RequirementKind};
pub use fault_text::requirement_fault_text;
pub use read::read_requirements;
pub use requirement::{Claim, MOST_REQUIREMENTS, Requirement};
