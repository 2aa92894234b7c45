//! The text of a rule: read as the grammar says, or refused with its first fault; and printed with fewest brackets.
#![tactic(auto)]

mod expression;
mod fault;
mod fault_text;
mod print;
mod read;
mod reader;
mod standing;
mod token;

pub use fault::RuleFault;
pub use fault_text::put_rule_fault;
pub use print::print_rule;
pub use read::read_rule;
