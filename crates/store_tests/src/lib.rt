//! Tests of the two kinds of stores, of what no contract says: what the bytes of a journal and the rows of a database are, what is
//! there after a stop, and keepers over real files.
#![tactic(auto)]

#[cfg(test)]
mod journal_calls;
#[cfg(test)]
mod journal_files;
#[cfg(test)]
mod journal_rows;
#[cfg(test)]
mod journal_stops;
#[cfg(test)]
mod run_store;
#[cfg(test)]
mod sql_keeper;
#[cfg(test)]
mod sql_row;
#[cfg(test)]
mod sql_statements;
