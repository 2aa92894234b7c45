//! What the answers of the solver, and of what it stands on, can't be: each call makes one call of a lower crate, and its contract says
//! which harm a run can't do.
#![tactic(auto)]

mod added;
mod clauses;
mod engines;
mod inquiries;
mod parts;
mod shared;
mod solving;

pub use added::no_code_is_added_that_the_others_do_without;
pub use clauses::{each_variant_has_a_literal, no_car_of_another_period_is_ruled_out};
pub use engines::{no_chain_starts_without_its_pivot, no_unit_clause_is_missed};
pub use inquiries::{
    no_shown_question_is_passed_over, sets_of_another_day_are_let_go, what_is_found_is_shown,
};
pub use parts::no_position_of_the_second_book_is_left_out;
pub use shared::what_is_made_stands_at_its_place;
pub use solving::{
    learnt_clauses_have_no_foreign_variable, no_assumption_is_dropped, no_core_lacks_an_assumption,
    no_search_is_left_early,
};
