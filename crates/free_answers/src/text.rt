//! The text of what can be chosen.
ghost use Rattle.std.specs.Prelude.{◌≡◌, ◌++◌, IfOk, OnOk};
ghost use Rattle.free_answers.specs.FreeText.{end_text, free_text, freedom_text, is_open, now_text, open_count, states_text};

use crate::answer::FreeAnswer;
use crate::lines::put_lines;
use book_model::Book;
use left_cars::{CodeState, Freedom};
use order_text::{outcome_text, put_refused};
use parts_usage::Outcome;
use pb_base::{Body, CodeSet, Memory, Text, put_number};
use std::alloc::Global;

/// `now` with what the order comes to, then `none`, `undecided`, or a line for each code, and `end` with the number of codes that are
/// open.
pub fn free_text(alloc: Global, book: &Book, answer: &FreeAnswer) -> Result<Body, Memory>
    ensures { IfOk result (λ text. text ≡ free_text book.now answer.now) }
{
    let mut text = Text::new(alloc);
    put_now(alloc, &mut text, book, &answer.outcome)?;
    put_freedom(&mut text, book, &answer.completed, &answer.freedom)?;
    Ok(text.into_body())
}

// What the order comes to as it stands.
fn put_now(alloc: Global, text: &mut Text, book: &Book, outcome: &Outcome) -> Result<(), Memory>
    ensures { OnOk result (text.new ≡ text.old ++ now_text book.now outcome.now) }
{
    text.put(b"now ")?;
    match outcome {
        Outcome::Accepted { .. } => text.put(b"accepted\n"),
        Outcome::Refused(rule) => put_refused(text, book, *rule),
        Outcome::Unfit { .. } => {
            let told = outcome_text(alloc, book, outcome)?;
            text.put(told.as_slice())
        }
    }
}

fn put_freedom(
    text: &mut Text,
    book: &Book,
    completed: &CodeSet,
    freedom: &Freedom,
) -> Result<(), Memory>
    ensures { OnOk result (text.new ≡ text.old ++ freedom_text book.now completed.now freedom.now) }
{
    match freedom {
        Freedom::NoneLeft => text.put(b"none\nend 0\n"),
        Freedom::NotDecided(_) => text.put(b"undecided\nend 0\n"),
        Freedom::Codes(states) => put_states(text, book, completed, states),
    }
}

// The lines of the codes, and how many of them are open.
fn put_states(
    text: &mut Text,
    book: &Book,
    completed: &CodeSet,
    states: &[CodeState],
) -> Result<(), Memory>
    ensures { OnOk result (text.new ≡ text.old ++ states_text book.now completed.now states.now) }
{
    put_lines(text, book.codes(), completed, states)?;
    put_end(text, open_count(states))
}

fn put_end(text: &mut Text, count: u64) -> Result<(), Memory>
    ensures { OnOk result (text.new ≡ text.old ++ end_text count) }
{
    text.put(b"end")?;
    put_number(text, count)?;
    text.put(b"\n")
}

fn open_count(states: &[CodeState]) -> u64
    ensures { result ≡ open_count states.now }
{
    let mut count = 0;
    for state in states {
        if is_open(state) {
            count += 1;
        }
    }
    count
}

fn is_open(state: &CodeState) -> bool
    ensures { result ≡ is_open state.now }
{
    matches!(state, CodeState::Open)
}
