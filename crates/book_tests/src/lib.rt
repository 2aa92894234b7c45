//! Tests of the crates from `pb_base` to `book_sample`, a file for each subject: of what no contract of theirs says and no run of
//! the program shows.
#![tactic(auto)]

#[cfg(test)]
mod chain_steps;
#[cfg(test)]
mod coded;
#[cfg(test)]
mod completing;
#[cfg(test)]
mod effort;
#[cfg(test)]
mod generated;
#[cfg(test)]
mod moved_chains;
#[cfg(test)]
mod outside;
#[cfg(test)]
mod printing;
#[cfg(test)]
mod questions;
#[cfg(test)]
mod threads;
#[cfg(test)]
mod trails;
