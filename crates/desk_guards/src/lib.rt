//! What the desk, its store and a session never do. Each function is proved from the clauses of the public function that it calls.
#![tactic(auto)]

mod desk_steps;
mod failed_writes;
mod journal_puts;
mod store_faults;

pub use desk_steps::{
    no_kept_order_is_answered_by_another_book, no_row_is_read_before_a_put,
    no_row_stays_of_a_step_without_memory,
};
pub use failed_writes::no_call_is_answered_behind_a_failed_write;
pub use journal_puts::{
    no_failed_put_comes_back, no_stop_in_a_put_leaves_other_rows, no_stop_loses_an_answered_put,
};
pub use store_faults::{no_failure_is_left_uncounted, no_failure_is_told_as_want_of_memory};
