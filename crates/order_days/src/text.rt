//! The text of the runs of days.
ghost use Rattle.std.specs.Prelude.{◌≡◌, ◌++◌, Some, All, IfOk, IfSome, OnOk, length, slice_get, if◌then◌else◌};
ghost use Rattle.std.specs.Option.{option_and_then, option_map};
ghost use Rattle.chosen_parts.specs.Chosen.{AreFew};
ghost use Rattle.pb_base.specs.Lines.{line, number_behind};
ghost use Rattle.order_text.specs.OutcomeText.{unfit_text};
ghost use Rattle.order_days.specs.Days.{FitsBook, FitsOutcome};
ghost use Rattle.order_days.specs.DaysText.{Built, accepted_text, built_by, built_text, days_line, days_text, is_built, outcome_text, run_text};

use crate::lines::{put_changed_codes, put_codes, put_now};
use crate::run::Run;
use book_model::{Book, position_id};
use order_text::put_refused;
use parts_usage::Outcome;
use pb_base::{Body, CodeSet, Day, Memory, Text, put_number};
use std::alloc::Global;

/// The lines of each run: `days FIRST LAST`, then `accepted`, `refused RULE` or `unfit POSITION COUNT`. After `accepted` the codes, if
/// they are others than those of the accepted run before, and then a line for each position at which other parts stand than in that
/// run.
pub fn days_text(alloc: Global, book: &Book, runs: &[Run]) -> Result<Body, Memory>
    requires { All (FitsBook book.now) runs.now }
    ensures { IfOk result (λ text. text ≡ days_text book.now runs.now) }
{
    let mut text = Text::new(alloc);
    let mut before = None;
    for (place, run) in runs.iter().enumerate() {
        put_run(&mut text, book, run_at(runs, before), run)?;
        let next = latest(before, place, &run.outcome);
        before = next;
    }
    Ok(text.into_body())
}

// The place of the last accepted run, after one more.
fn latest(before: Option<usize>, place: usize, outcome: &Outcome) -> Option<usize>
    ensures { result ≡ (if is_built outcome.now then Some place else before) }
{
    if is_built(outcome) {
        Some(place)
    } else {
        before
    }
}

fn run_at(runs: &[Run], place: Option<usize>) -> Option<&Run>
    ensures { option_map (λ run. run.now) result ≡ option_and_then (slice_get runs.now) place }
{
    runs.get(place?)
}

fn is_built(outcome: &Outcome) -> bool
    ensures { result ≡ is_built outcome.now }
{
    matches!(outcome, Outcome::Accepted { .. })
}

// The lines of a run, with the accepted run before.
fn put_run(text: &mut Text, book: &Book, before: Option<&Run>, run: &Run) -> Result<(), Memory>
    requires before { IfSome before (λ one. FitsBook book.now one.now) }
    requires fits { FitsBook book.now run.now }
    ensures { let built = option_and_then (λ one. built_by one.now) before.entry in
        OnOk result (text.new ≡ text.old ++ run_text book.now built run.now) }
{
    put_days(text, run.first, run.last)?;
    put_outcome(text, book, before, run.first, &run.outcome)
}

fn put_days(text: &mut Text, first: Day, last: Day) -> Result<(), Memory>
    ensures { OnOk result (text.new ≡ text.old ++ days_line first last) }
{
    text.put(b"days")?;
    put_number(text, u64::from(first))?;
    put_number(text, u64::from(last))?;
    text.put(b"\n")
}

fn put_outcome(
    text: &mut Text,
    book: &Book,
    before: Option<&Run>,
    day: Day,
    outcome: &Outcome,
) -> Result<(), Memory>
    requires before { IfSome before (λ one. FitsBook book.now one.now) }
    requires fits { FitsOutcome book.now day outcome.now }
    ensures { let built = option_and_then (λ one. built_by one.now) before.entry in
        OnOk result (text.new ≡ text.old ++ outcome_text book.now built day outcome.now) }
{
    match outcome {
        Outcome::Accepted { set, .. } => put_accepted(text, book, before, day, set),
        Outcome::Refused(rule) => put_refused(text, book, *rule),
        Outcome::Unfit { position, count } => put_unfit(text, book, *position, *count),
    }
}

fn put_unfit(text: &mut Text, book: &Book, position: u32, count: u32) -> Result<(), Memory>
    ensures { OnOk result (text.new ≡ text.old ++ unfit_text book.now position count) }
{
    text.put(b"unfit ")?;
    text.put(position_id(book, position))?;
    put_number(text, u64::from(count))?;
    text.put(b"\n")
}

fn put_accepted(
    text: &mut Text,
    book: &Book,
    before: Option<&Run>,
    day: Day,
    set: &CodeSet,
) -> Result<(), Memory>
    requires before { IfSome before (λ one. FitsBook book.now one.now) }
    requires codes { length set.now ≡ length book.now.codes }
    requires few { AreFew book.now day set.now }
    ensures { let built = option_and_then (λ one. built_by one.now) before.entry in
        OnOk result (text.new ≡ text.old ++ accepted_text book.now built day set.now) }
{
    text.put(b"accepted\n")?;
    match before {
        Some(run) => put_after(text, book, run, day, set),
        None => put_codes(text, book, set),
    }
}

// What has changed since a run, if it is an accepted one; else the codes.
fn put_after(
    text: &mut Text,
    book: &Book,
    before: &Run,
    day: Day,
    set: &CodeSet,
) -> Result<(), Memory>
    requires before { FitsBook book.now before.now }
    requires codes { length set.now ≡ length book.now.codes }
    requires few { AreFew book.now day set.now }
    ensures { let after : Built = record { day = day; set = set.now } in
        OnOk result (text.new ≡ text.old ++ built_text book.now (built_by before.now) after) }
{
    match &before.outcome {
        Outcome::Accepted { set: old, .. } => {
            put_changed_codes(text, book, old, set)?;
            put_now(text, book, before.first, old, day, set)
        }
        Outcome::Refused(_) => put_codes(text, book, set),
        Outcome::Unfit { .. } => put_codes(text, book, set),
    }
}
