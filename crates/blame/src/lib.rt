//! A car that meets a rule, or the rules that are to blame that none does.
#![tactic(auto)]

mod blamed;
mod case;
mod codes;
mod coding;
mod deciding;
mod entries;
mod guarding;
mod kept;
mod looking;
mod marks;
mod meeting;
mod missed;
mod near;
mod noting;
mod order;
mod places;
mod plain;
mod rotating;
mod sets;
mod shrinking;
mod telling;
mod text;
mod trying;
mod unused;
mod used;
mod values;

pub use blamed::{Blamed, Told};
pub use entries::Entry;
pub use telling::{blame_by, blame_near, find_or_blame};
pub use text::{ask_text, put_entries};
