//! The words of a command line, read as the task that they ask for.
#![tactic(auto)]

ghost use Rattle.std.specs.Prelude.{◌≡◌, ◌++◌, None, Some, IfOk, option_map, take};
ghost use Rattle.command_words.specs.Meaning.{Means, MeansByForm, MeansSeveral, behind_ask, workers_cut};
ghost use Rattle.command_words.specs.Several.{workers_place};
ghost use Rattle.command_words.specs.Prepared.{texts_of};

mod ask_words;
mod asked;
mod budget;
mod file_name;
mod grammar;
mod impact;
mod parse;
mod prepare;
mod rejudging;
mod rule_word;
mod sample_size;
mod service;
mod several;
mod task;
mod workers;

use crate::ask_words::ask_task;
use crate::parse::parse;
use crate::prepare::prepare;
use crate::several::{task_with, without_option, workers_cut, workers_place};
pub use budget::Budget;
pub use file_name::FileName;
pub use impact::Impact;
use pb_base::Memory;
pub use rejudging::Rejudging;
pub use rule_word::RuleWord;
pub use sample_size::SampleSize;
pub use service::Service;
use std::alloc::Global;
pub use task::{BookCommand, Task};
pub use workers::Workers;

/// The task that the words ask for, or None where they are of no form. The words are those behind the program's name.
pub fn task_of(alloc: Global, words: &[String]) -> Result<Option<Task>, Memory>
    ensures { IfOk result (Means (texts_of words.now)) }
{
    match behind_ask(words) {
        Some(behind) => ask_task(alloc, behind),
        None => other_task(alloc, words),
    }
}

// The words behind `ask`, where the words begin so.
fn behind_ask(words: &[String]) -> Option<&[String]>
    ensures { option_map (λ behind. texts_of behind.now) result ≡ behind_ask (texts_of words.now) }
{
    let (word, behind) = words.split_first()?;
    if word.as_str() == "ask" {
        Some(behind)
    } else {
        None
    }
}

// The same of words that don't begin with `ask`.
fn other_task(alloc: Global, words: &[String]) -> Result<Option<Task>, Memory>
    requires { behind_ask (texts_of words.now) ≡ None }
    ensures { IfOk result (Means (texts_of words.now)) }
{
    match workers_place(words) {
        Some(place) => several_task(alloc, words, place),
        None => form_task(alloc, words),
    }
}

// The same of words that have the option of several workers at this place.
fn several_task(alloc: Global, words: &[String], place: usize) -> Result<Option<Task>, Memory>
    requires { workers_place (texts_of words.now) ≡ Some place }
    ensures { IfOk result (MeansSeveral (texts_of words.now)) }
{
    match workers_cut(words, place) {
        Some((workers, behind)) => cut_task(alloc, words, place, workers, behind),
        None => Ok(None),
    }
}

// The same of words that have the option at this place, with so many workers, and these words behind it.
fn cut_task(
    alloc: Global,
    words: &[String],
    place: usize,
    workers: Workers,
    behind: &[String],
) -> Result<Option<Task>, Memory>
    requires stands { workers_place (texts_of words.now) ≡ Some place }
    requires cut { workers_cut (texts_of words.now) place
        ≡ Some (workers, take place (texts_of words.now) ++ texts_of behind.now) }
    ensures { IfOk result (MeansSeveral (texts_of words.now)) }
{
    let others = without_option(alloc, words, place, behind)?;
    let one = form_task(alloc, &others)?;
    Ok(task_with(one, workers))
}

// The same of words that have a form.
fn form_task(alloc: Global, words: &[String]) -> Result<Option<Task>, Memory>
    ensures { IfOk result (MeansByForm (texts_of words.now)) }
{
    match prepare(alloc, words)? {
        Some(list) => parse(alloc, &list),
        None => Ok(None),
    }
}
