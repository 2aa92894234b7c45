//! What can't be told of cars: each call makes one call of a lower crate, and its contract says which harm a run can't do.
#![tactic(auto)]

mod blamed;
mod left;
mod staying;

pub use blamed::{
    no_car_is_hidden, what_is_blamed_leaves_no_set, what_is_called_needed_is_needed,
    what_is_not_needed_was_searched,
};
pub use left::{
    no_car_is_called_gone, open_codes_are_open, what_is_forced_is_forced,
    what_is_left_has_the_chosen_codes,
};
pub use staying::no_code_is_left_out_beside_which_a_car_stands;
