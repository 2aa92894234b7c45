//! Cars of one book that another book loses, and why: a rule of the other book, or a code that it lacks.
#![tactic(auto)]

mod asks;
mod by_name;
mod common_cars;
mod losses;
mod note;
mod question;
mod questions;
mod same;
mod violation;

pub use common_cars::common_car;
pub use losses::lost_cars;
pub use note::{Cause, LossNote};
