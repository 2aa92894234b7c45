//! What no service does. Each function is proved from the clauses of the public function that it calls.
#![tactic(auto)]

mod ports;

pub use ports::{
    no_failed_port_is_told_as_over, no_other_port_is_listened_at,
    no_port_that_failed_ends_work_as_over, no_worker_makes_a_step_more_than_its_part,
};
