//! The option of several workers, which is cut out of the words before the others are read.
ghost use Rattle.std.specs.Prelude.{◌≡◌, ◌++◌, ◌<◌, ◌≤◌, Some, IfOk, IfSome, OnOk, drop, length, option_map, take};
ghost use Rattle.std.specs.Option.{option_and_then};
ghost use Rattle.command_words.specs.Meaning.{command_with, task_with, workers_cut};
ghost use Rattle.command_words.specs.Prepared.{texts_of};
ghost use Rattle.command_words.specs.Several.{is_value, is_workers, workers_place, workers_value};

use crate::ask_words::next_word;
use crate::asked::workers_in;
use crate::task::{BookCommand, Task};
use crate::workers::Workers;
use pb_base::Memory;
use std::alloc::Global;

/// The place of the option behind the first word and before `--`, if it stands there.
pub(crate) fn workers_place(words: &[String]) -> Option<usize>
    ensures { result ≡ workers_place (texts_of words.now) }
{
    for place in 1..words.len() {
        let word = words[place].as_str();
        if is_workers(word) {
            return Some(place);
        }
        if word == "--" {
            return None;
        }
    }
    None
}

fn is_workers(word: &str) -> bool
    ensures { result ≡ is_workers word.now }
{
    word == "--workers" || word.as_bytes().starts_with(b"--workers=")
}

/// How many workers the option at this place gives, and the words behind it.
pub(crate) fn workers_cut(words: &[String], place: usize) -> Option<(Workers, &[String])>
    requires { place ≤ length words.now }
    ensures { option_map (λ p. (p.0, take place (texts_of words.now) ++ texts_of p.1.now)) result
        ≡ workers_cut (texts_of words.now) place }
{
    if is_value(words, place) {
        return None;
    }
    let (value, behind) = workers_value(&words[place..])?;
    let workers = workers_in(value)?;
    Some((workers, behind))
}

// Whether the word at a place stands just behind `--budget`.
fn is_value(words: &[String], place: usize) -> bool
    ensures { result ≡ is_value (texts_of words.now) place }
{
    match words.get(place.saturating_sub(1)) {
        Some(word) => word.as_str() == "--budget",
        None => false,
    }
}

// The value of the option with which these words begin, and the words behind it.
fn workers_value(words: &[String]) -> Option<(&[u8], &[String])>
    ensures { option_map (λ p. (p.0.now, texts_of p.1.now)) result ≡ workers_value (texts_of words.now) }
{
    let (word, behind) = words.split_first()?;
    if word.as_str() == "--workers" {
        return next_word(behind);
    }
    Some((behind_sign(word.as_bytes()), behind))
}

// What stands behind `--workers=`.
fn behind_sign(word: &[u8]) -> &[u8]
    ensures { result.now ≡ drop 10 word.now }
{
    if word.len() < 10 {
        return &[];
    }
    &word[10..]
}

/// The words in front of the option at this place, and those behind it.
pub(crate) fn without_option(
    alloc: Global,
    words: &[String],
    place: usize,
    behind: &[String],
) -> Result<Vec<String>, Memory>
    requires { place ≤ length words.now }
    ensures { IfOk result (λ others. texts_of others.items
        ≡ take place (texts_of words.now) ++ texts_of behind.now) }
{
    let mut others = Vec::new(alloc);
    copy_all(alloc, &mut others, &words[..place])?;
    copy_all(alloc, &mut others, behind)?;
    Ok(others)
}

fn copy_all(alloc: Global, kept: &mut Vec<String>, words: &[String]) -> Result<(), Memory>
    ensures { OnOk result (texts_of kept.new.items ≡ texts_of kept.old.items ++ texts_of words.now) }
{
    for word in words {
        let copy = String::from_str(alloc, word.as_str())?;
        kept.push(copy)?;
    }
    Ok(())
}

/// The task by so many workers, where it can be shared.
pub(crate) fn task_with(task: Option<Task>, workers: Workers) -> Option<Task>
    ensures { result ≡ option_and_then (task_with workers) task }
{
    match task? {
        Task::Book(command) => {
            let shared = command_with(command, workers)?;
            Some(Task::Book(shared))
        }
        Task::Desk { .. } => None,
        Task::Serve(_) => None,
        Task::Rejudge(_) => None,
        Task::Impact(_) => None,
        Task::Sample(_) => None,
    }
}

fn command_with(command: BookCommand, workers: Workers) -> Option<BookCommand>
    ensures { result ≡ command_with workers command }
{
    match command {
        BookCommand::Check { budget, .. } => Some(BookCommand::Check { budget, workers }),
        BookCommand::Prove { budget, .. } => Some(BookCommand::Prove { budget, workers }),
        BookCommand::Supplements { budget, .. } => {
            Some(BookCommand::Supplements { budget, workers })
        }
        BookCommand::Compare {
            day,
            file,
            budget,
            ..
        } => Some(BookCommand::Compare {
            day,
            file,
            budget,
            workers,
        }),
        BookCommand::Require { file, budget, .. } => Some(BookCommand::Require {
            file,
            budget,
            workers,
        }),
        BookCommand::Changes { file, budget, .. } => Some(BookCommand::Changes {
            file,
            budget,
            workers,
        }),
        BookCommand::Order { .. } => None,
        BookCommand::Free { .. } => None,
        BookCommand::Why { .. } => None,
        BookCommand::Ask { .. } => None,
        BookCommand::Verify { .. } => None,
        BookCommand::Days { .. } => None,
    }
}
