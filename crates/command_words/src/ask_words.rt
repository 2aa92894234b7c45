//! The words behind `ask`, among which a rule may begin with `-`.
ghost use Rattle.std.specs.Prelude.{◌≡◌, ◌++◌, None, Some, IfOk, OnOk, option_map};
ghost use Rattle.std.specs.Option.{option_and_then};
ghost use Rattle.command_words.specs.AskWords.{attached_value, behind_short, next_word, operands_of, option_value, short_front};
ghost use Rattle.command_words.specs.Meaning.{ask_from, ask_of, ask_task, asked_on, asked_with};
ghost use Rattle.command_words.specs.Prepared.{if_done, lent, texts_of};

use crate::asked::budget_in;
use crate::budget::Budget;
use crate::prepare::is_long;
use crate::rule_word::RuleWord;
use crate::task::{BookCommand, Task};
use pb_base::limits::{DEFAULT_BUDGET, MOST_TEXT_BYTES};
use pb_base::{Day, Memory, short_number};
use std::alloc::Global;

/// The task that the words behind `ask` ask for, or None where they are of no form.
pub fn ask_task(alloc: Global, words: &[String]) -> Result<Option<Task>, Memory>
    ensures { IfOk result (λ task. task ≡ ask_task (texts_of words.now)) }
{
    let mut front = Vec::new(alloc);
    let behind = take_short(&mut front, words)?;
    ask_from(alloc, &mut front, behind)
}

// The same by the operands in front and the words from the first one on that begins with `--`.
fn ask_from<'a>(
    alloc: Global,
    front: &mut Vec<&'a str>,
    words: &'a [String],
) -> Result<Option<Task>, Memory>
    ensures { IfOk result (λ task. task ≡ ask_from (lent front.old.items) (texts_of words.now)) }
{
    match words.split_first() {
        None => asked_with(alloc, Budget::of(DEFAULT_BUDGET), front),
        Some((word, behind)) if word.as_str() == "--" => without_option(alloc, front, behind),
        Some((word, behind)) => with_option(alloc, front, word.as_str(), behind),
    }
}

// The operands go on behind `--`, and no option stood before it.
fn without_option<'a>(
    alloc: Global,
    front: &mut Vec<&'a str>,
    words: &'a [String],
) -> Result<Option<Task>, Memory>
    ensures { IfOk result (λ task. task ≡ ask_of None (lent front.old.items ++ texts_of words.now)) }
{
    take_all(front, words)?;
    asked_with(alloc, Budget::of(DEFAULT_BUDGET), front)
}

// The word that begins with `--` has to be the option.
fn with_option<'a>(
    alloc: Global,
    front: &mut Vec<&'a str>,
    option: &'a str,
    words: &'a [String],
) -> Result<Option<Task>, Memory>
    ensures { let found = option_value option.now (texts_of words.now) in
        IfOk result (λ task. task ≡ option_and_then (λ p. option_and_then
        (λ more. ask_of (Some p.0) (lent front.old.items ++ more)) (operands_of p.1)) found) }
{
    match option_value(option, words) {
        Some((value, behind)) => with_value(alloc, front, value, behind),
        None => Ok(None),
    }
}

// The option has this value, and further operands stand behind it.
fn with_value<'a>(
    alloc: Global,
    front: &mut Vec<&'a str>,
    value: &[u8],
    words: &'a [String],
) -> Result<Option<Task>, Memory>
    ensures { IfOk result (λ task. task ≡ option_and_then
        (λ more. ask_of (Some value.now) (lent front.old.items ++ more)) (operands_of (texts_of words.now))) }
{
    if !take_operands(front, words)? {
        return Ok(None);
    }
    match budget_in(value) {
        Some(budget) => asked_with(alloc, budget, front),
        None => Ok(None),
    }
}

// What a day and a rule ask with a budget.
fn asked_with(alloc: Global, budget: Budget, operands: &[&str]) -> Result<Option<Task>, Memory>
    ensures { IfOk result (λ task. task ≡ asked_with budget (lent operands.now)) }
{
    let [day, rule] = operands else {
        return Ok(None);
    };
    match short_number(day.as_bytes()) {
        Some(day) => asked_on(alloc, budget, rule, day),
        None => Ok(None),
    }
}

fn asked_on(alloc: Global, budget: Budget, rule: &str, day: Day) -> Result<Option<Task>, Memory>
    ensures { IfOk result (λ task. task ≡ asked_on budget rule.now day) }
{
    if rule.len() > MOST_TEXT_BYTES {
        return Ok(None);
    }
    let rule = RuleWord::of(alloc, rule)?;
    Ok(Some(Task::Book(BookCommand::Ask { day, rule, budget })))
}

// Takes the words in front that don't begin with `--`, and gives those behind them.
fn take_short<'a>(kept: &mut Vec<&'a str>, words: &'a [String]) -> Result<&'a [String], Memory>
    ensures kept { OnOk result
        (lent kept.new.items ≡ lent kept.old.items ++ short_front (texts_of words.now)) }
    ensures behind { IfOk result (λ behind. texts_of behind.now ≡ behind_short (texts_of words.now)) }
{
    let mut left = words;
    while let Some((word, behind)) = left.split_first() {
        if is_long(word.as_bytes()) {
            return Ok(left);
        }
        kept.push(word.as_str())?;
        left = behind;
    }
    Ok(left)
}

// Takes each of the words.
fn take_all<'a>(kept: &mut Vec<&'a str>, words: &'a [String]) -> Result<(), Memory>
    ensures { OnOk result (lent kept.new.items ≡ lent kept.old.items ++ texts_of words.now) }
{
    for word in words {
        kept.push(word.as_str())?;
    }
    Ok(())
}

// Takes words among which there may be no option.
fn take_operands<'a>(kept: &mut Vec<&'a str>, words: &'a [String]) -> Result<bool, Memory>
    ensures { IfOk result (λ done. if_done done (lent kept.new.items)
        ≡ option_map (λ more. lent kept.old.items ++ more) (operands_of (texts_of words.now))) }
{
    let behind = take_short(kept, words)?;
    match behind.split_first() {
        None => Ok(true),
        Some((word, last)) if word.as_str() == "--" => {
            take_all(kept, last)?;
            Ok(true)
        }
        Some(_) => Ok(false),
    }
}

// The value of an option, which may be the next word, and the words behind it.
fn option_value<'a>(option: &'a str, words: &'a [String]) -> Option<(&'a [u8], &'a [String])>
    ensures { option_map (λ p. (p.0.now, texts_of p.1.now)) result ≡ option_value option.now (texts_of words.now) }
{
    if option == "--budget" {
        return next_word(words);
    }
    let value = attached_value(option)?;
    Some((value, words))
}

pub(crate) fn next_word(words: &[String]) -> Option<(&[u8], &[String])>
    ensures { option_map (λ p. (p.0.now, texts_of p.1.now)) result ≡ next_word (texts_of words.now) }
{
    let (word, behind) = words.split_first()?;
    Some((word.as_bytes(), behind))
}

fn attached_value(option: &str) -> Option<&[u8]>
    ensures { option_map (λ value. value.now) result ≡ attached_value option.now }
{
    option.as_bytes().strip_prefix(b"--budget=")
}
