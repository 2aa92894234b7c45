//! What a check of a book can't tell: each call makes one call of a lower crate, and its contract says which harm a run can't do.
#![tactic(auto)]

mod refusals;
mod reports;
mod rules;

pub use refusals::no_refusal_is_without_its_finding;
pub use reports::{
    no_question_is_refuted_by_other_days, no_set_of_another_day_is_shown, no_slice_is_passed_over,
    no_void_slice_is_released,
};
pub use rules::{
    no_shown_pair_is_passed_over, no_slice_of_rules_is_passed_over, what_is_calm_has_one_end,
    what_is_told_to_break_does,
};
