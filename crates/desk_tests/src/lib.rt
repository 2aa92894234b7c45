//! Tests of the crates from `desk_words` to `session`, and of a desk over a journal: of what no contract of theirs says and no run of
//! the program shows.
#![tactic(auto)]

#[cfg(test)]
mod calls;
#[cfg(test)]
mod command_lines;
#[cfg(test)]
mod gate;
#[cfg(test)]
mod holders;
#[cfg(test)]
mod journal_stops;
#[cfg(test)]
mod lock_step;
#[cfg(test)]
mod replies;
#[cfg(test)]
mod setting;
