//! Whether two runs tell the same.
ghost use Rattle.std.specs.Prelude.{◌≡◌, length};
ghost use Rattle.std.specs.Option.{option_map, option_to_list};
ghost use Rattle.book_model.specs.Contents.{Contents};
ghost use Rattle.chosen_parts.specs.Chosen.{use_of, AreFew};
ghost use Rattle.order_days.specs.Days.{builds, refuses, misfits, parts_on, told_by, FitsBook};
ghost use Rattle.order_days.specs.Same.{is_same_set, are_same_uses, are_same_parts, is_told_same};

use crate::run::Run;
use book_model::{Book, Variant};
use chosen_parts::{chosen_variant, same_use};
use parts_usage::Outcome;
use pb_base::{CodeSet, Day};

/// Whether two runs tell the same.
pub(crate) fn tells_same(book: &Book, run: &Run, next: &Run) -> bool
    requires fits { FitsBook book.now run.now }
    requires next_fits { FitsBook book.now next.now }
    ensures { result ≡ is_told_same (told_by book.now run.now) (told_by book.now next.now) }
{
    match &run.outcome {
        Outcome::Accepted { set, .. } => builds_same(book, run.first, set, next),
        Outcome::Refused(rule) => refuses_same(*rule, next),
        Outcome::Unfit { position, count } => misfits_same(*position, *count, next),
    }
}

// Whether the next run is accepted with this set and its parts on this day.
fn builds_same(book: &Book, day: Day, set: &CodeSet, next: &Run) -> bool
    requires codes { length set.now ≡ length book.now.codes }
    requires few { AreFew book.now day set.now }
    requires next_fits { FitsBook book.now next.now }
    ensures { let told = builds set.now (parts_on book.now day set.now) in
        result ≡ is_told_same told (told_by book.now next.now) }
{
    match &next.outcome {
        Outcome::Accepted { set: other, .. } => {
            same_set(set, other) && same_parts(book, day, set, next.first, other)
        }
        Outcome::Refused(_) => false,
        Outcome::Unfit { .. } => false,
    }
}

fn refuses_same(rule: u32, next: &Run) -> bool
    ensures { (b : Contents) → result ≡ is_told_same (refuses rule) (told_by b next.now) }
{
    match &next.outcome {
        Outcome::Accepted { .. } => false,
        Outcome::Refused(other) => rule == *other,
        Outcome::Unfit { .. } => false,
    }
}

fn misfits_same(at: u32, selected: u32, next: &Run) -> bool
    ensures { (b : Contents) → result ≡ is_told_same (misfits at selected) (told_by b next.now) }
{
    match &next.outcome {
        Outcome::Accepted { .. } => false,
        Outcome::Refused(_) => false,
        Outcome::Unfit { position, count } => at == *position && selected == *count,
    }
}

// Whether two sets, over as many codes, have the same codes.
pub(crate) fn same_set(x: &CodeSet, y: &CodeSet) -> bool
    requires { length x.now ≡ length y.now }
    ensures { result ≡ is_same_set x.now y.now }
{
    for place in 0..x.len() {
        if x.has(place) != y.has(place) {
            return false;
        }
    }
    true
}

// Whether the same parts stand at each position, on one day with the one set and on the other with the other.
fn same_parts(book: &Book, one: Day, x: &CodeSet, other: Day, y: &CodeSet) -> bool
    requires codes { length x.now ≡ length book.now.codes }
    requires few { AreFew book.now one x.now }
    requires other_codes { length y.now ≡ length book.now.codes }
    requires other_few { AreFew book.now other y.now }
    ensures { result ≡ are_same_parts (parts_on book.now one x.now) (parts_on book.now other y.now) }
{
    for (place, position) in book.positions().iter().enumerate() {
        let here = chosen_variant(book, one, x, &position.id, place);
        let there = chosen_variant(book, other, y, &position.id, place);
        if !same_choice(here, there) {
            return false;
        }
    }
    true
}

// Whether two variants, if any stands there, use the same.
pub(crate) fn same_choice(own: Option<&Variant>, other: Option<&Variant>) -> bool
    ensures { let uses = option_to_list (option_map (λ v. use_of v.now) own.entry) in
        result ≡ are_same_uses uses (option_to_list (option_map (λ v. use_of v.now) other.entry)) }
{
    match (own, other) {
        (Some(own), Some(other)) => same_use(own, other),
        (Some(_), None) => false,
        (None, Some(_)) => false,
        (None, None) => true,
    }
}
