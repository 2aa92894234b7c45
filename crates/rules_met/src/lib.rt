//! Which of some rules some car of a day meets.
#![tactic(auto)]

mod answer;
mod ask;
mod source;

pub use answer::RuleAnswer;
pub use ask::ask_rules;
