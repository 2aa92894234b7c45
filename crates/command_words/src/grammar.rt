//! The grammar of the words, as the option parser is given it.
ghost use Rattle.std.specs.Prelude.{◌≡◌, IfOk, false};
ghost use Rattle.clap.specs.Words.{app_of, rule_of, with_rule};
ghost use Rattle.command_words.specs.Grammar.{bare, budget_rule, grammar, operands_rule};

use clap::{Arg, ArgAction, Command};
use pb_base::Memory;
use std::alloc::{AllocError, Global};

/// The grammar of what stands behind a command word: operands with at most one option among them.
pub fn grammar<'a>(alloc: Global) -> Result<Command<'a>, Memory>
    ensures { IfOk result (λ command. app_of command ≡ grammar) }
{
    match with_arguments(alloc, bare(alloc)) {
        Ok(command) => Ok(command),
        Err(error) => Err(Memory::from(error)),
    }
}

fn bare<'a>(alloc: Global) -> Command<'a>
    ensures { app_of result ≡ bare }
{
    Command::new(alloc, "partsbook")
        .no_binary_name(true)
        .disable_help_flag(true)
        .disable_version_flag(true)
}

fn with_arguments<'a>(alloc: Global, command: Command<'a>) -> Result<Command<'a>, AllocError>
    ensures { IfOk result (λ r. app_of r ≡ with_rule (with_rule (app_of command.entry) budget_rule) operands_rule) }
{
    match command.arg(budget(alloc)) {
        Ok(command) => command.arg(operands(alloc)),
        Err(error) => Err(error),
    }
}

fn budget<'a>(alloc: Global) -> Arg<'a>
    ensures rule { rule_of result ≡ budget_rule }
    ensures local { result.global ≡ false }
{
    Arg::new(alloc, "budget").long("budget")
}

fn operands<'a>(alloc: Global) -> Arg<'a>
    ensures rule { rule_of result ≡ operands_rule }
    ensures local { result.global ≡ false }
{
    Arg::new(alloc, "operands").action(ArgAction::Append)
}
