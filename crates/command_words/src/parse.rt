//! Reads prepared words by the option parser.
ghost use Rattle.std.specs.Prelude.{◌≡◌, IfOk, true};
ghost use Rattle.clap.specs.Words.{found_of, rows_of};
ghost use Rattle.command_words.specs.Meaning.{asked};
ghost use Rattle.command_words.specs.Prepared.{lent};
ghost use Rattle.command_words.specs.Grammar.{is_prepared, is_tame, parsed, parsed_behind, rows_asked};

use crate::asked::asked;
use crate::grammar::grammar;
use crate::task::Task;
use clap::ArgMatches;
use clap::error::ErrorKind;
use pb_base::Memory;
use std::alloc::Global;

/// The task that prepared words ask for, or None where they ask for none.
pub fn parse(alloc: Global, words: &[&str]) -> Result<Option<Task>, Memory>
    requires { is_prepared (lent words.now) ≡ true }
    ensures { IfOk result (λ task. task ≡ parsed (lent words.now)) }
{
    match words.split_first() {
        Some((name, behind)) => parse_behind(alloc, name, behind),
        None => Ok(None),
    }
}

// The same of a command word and the words behind it. The parser has only these.
fn parse_behind(alloc: Global, name: &str, words: &[&str]) -> Result<Option<Task>, Memory>
    requires { is_tame (lent words.now) ≡ true }
    ensures { IfOk result (λ task. task ≡ parsed_behind name.now (lent words.now)) }
{
    match grammar(alloc)?.try_get_matches_from(words) {
        Ok(matches) => read_rows(alloc, name, &matches),
        Err(error) => match error.kind() {
            ErrorKind::OutOfMemory => Err(Memory),
            _ => Ok(None),
        },
    }
}

// Reads what the parser found.
fn read_rows(alloc: Global, name: &str, found: &ArgMatches<'_>) -> Result<Option<Task>, Memory>
    ensures { IfOk result (λ task. task ≡ rows_asked name.now (rows_of (found_of found.now))) }
{
    let budget = found.get_str("budget");
    match found.get_strs("operands") {
        Some(operands) => asked(alloc, name, budget, operands),
        None => asked(alloc, name, budget, &[]),
    }
}
