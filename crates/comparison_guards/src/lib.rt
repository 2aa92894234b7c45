//! What no comparison of two books and no answer to an order tells. Each function is proved from the clauses of the public function
//! that it calls.
#![tactic(auto)]

mod cars;
mod days;
mod kept_orders;
mod positions;
mod repairs;
mod runs;

pub use cars::{
    no_cause_of_a_lost_car_is_left_out, no_lost_car_is_left_out,
    no_other_car_is_told_as_one_of_both,
};
pub use days::no_run_has_a_day_of_another_outcome;
pub use kept_orders::{no_order_is_judged_by_its_own_book, no_order_is_told_the_answer_of_another};
pub use positions::{
    no_car_of_one_book_alone_is_told, no_changed_position_is_left_out,
    no_position_of_the_second_book_is_left_out,
};
pub use repairs::{
    no_change_is_told_that_is_not_accepted, no_code_is_told_to_go_that_stays,
    no_search_that_was_left_is_told_as_no_order,
};
pub use runs::{no_run_has_days_of_one_book_alone, no_won_car_is_none_of_the_second_book};
