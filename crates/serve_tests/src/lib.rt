//! Tests of `turn_book`, `tcp_door` and `serve_run`, with threads: of what no contract says, that work overlaps and what a connection
//! carries.
#![tactic(auto)]

#[cfg(test)]
mod door;
#[cfg(test)]
mod gates;
#[cfg(test)]
mod messages;
#[cfg(test)]
mod runs;
#[cfg(test)]
mod seats;
#[cfg(test)]
mod tcp;
