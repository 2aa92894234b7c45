//! Positions that have the same variants in both books. No search is needed there.
ghost use Rattle.std.specs.Prelude.{◌≡◌, ◌<◌, All, IfOk, false, length, slice_get, true};
ghost use Rattle.std.specs.Option.{option_map_or};
ghost use Rattle.book_model.specs.Parts.{is_active_position};
ghost use Rattle.clausify.specs.Choices.{active_variants};
ghost use Rattle.book_compare.specs.Common.{AreAlike};
ghost use Rattle.book_compare.specs.Comparing.{IsComparing};
ghost use Rattle.book_compare.specs.Same.{variants_on, variants_at, IsSameVariant, IsSameUsage, AreSameUsages};

use crate::comparing::Comparing;
use crate::renaming::push_active;
use book_model::{Book, Variant, active};
use chosen_parts::{place_of_position, same_use};
use pb_base::{Day, Id, Memory, Renamed};
use std::alloc::Global;

/// Whether the active variants at the position of an id are the same in both books. The guess is where the position stands in one
/// of them.
pub(crate) fn same_at(
    alloc: Global,
    comparing: &Comparing,
    id: &Id,
    guess: usize,
) -> Result<bool, Memory>
    requires { IsComparing comparing.now }
    ensures { let c = comparing.now in
        IfOk result (λ same. same ≡ true → AreAlike c.first.now c.second.now c.day id.now) }
{
    let own = variants_at(alloc, comparing.first, comparing.day, id, guess)?;
    let other = variants_at(alloc, comparing.second, comparing.day, id, guess)?;
    let same = same_usages(
        alloc,
        &comparing.joint.numbers,
        comparing.first,
        &own,
        comparing.second,
        &other,
    )?;
    Ok(same)
}

// The places of the active variants of the position of an id; none where the book has no such position, or it isn't active.
#[tactic(auto, using(crate::proofs::SameLaws::at_place, crate::proofs::SameLaws::at_none))]
fn variants_at(
    alloc: Global,
    book: &Book,
    day: Day,
    id: &Id,
    guess: usize,
) -> Result<Vec<u32>, Memory>
    ensures variants { IfOk result (λ vs. vs.items ≡ variants_at book.now day id.now) }
    ensures in_range { IfOk result (λ vs. All (λ v. v < length book.now.variants) vs.items) }
{
    match place_of_position(book, id, guess) {
        Some(place) => variants_on(alloc, book, day, place),
        None => Ok(Vec::new(alloc)),
    }
}

// The same of the position at a place.
#[tactic(auto, using(crate::proofs::SameLaws::on_passive))]
fn variants_on(alloc: Global, book: &Book, day: Day, place: u32) -> Result<Vec<u32>, Memory>
    ensures variants { IfOk result (λ vs. vs.items ≡ variants_on book.now day place) }
    ensures in_range { IfOk result (λ vs. All (λ v. v < length book.now.variants) vs.items) }
{
    if !is_active_at(book, day, place) {
        return Ok(Vec::new(alloc));
    }
    active_on(alloc, book, day, place)
}

// Whether there is a position at the place, and it is active.
fn is_active_at(book: &Book, day: Day, place: u32) -> bool
    ensures value { let found = slice_get book.now.positions place in
        result ≡ option_map_or (is_active_position day) found false }
    ensures within { result ≡ true → place < length book.now.positions }
{
    match book.positions().get(place as usize) {
        Some(position) => active(position.from, position.until, day),
        None => false,
    }
}

#[tactic(auto, using(crate::proofs::SameLaws::on_active, crate::proofs::SameLaws::active_within))]
fn active_on(alloc: Global, book: &Book, day: Day, place: u32) -> Result<Vec<u32>, Memory>
    requires within { place < length book.now.positions }
    requires active { let found = slice_get book.now.positions place in
        option_map_or (is_active_position day) found false ≡ true }
    ensures variants { IfOk result (λ vs. vs.items ≡ variants_on book.now day place) }
    ensures in_range { IfOk result (λ vs. All (λ v. v < length book.now.variants) vs.items) }
{
    let mut variants = Vec::new(alloc);
    push_active(&mut variants, book, day, place)?;
    Ok(variants)
}

// Whether these variants of the first book are those of the second, one by one.
fn same_usages(
    alloc: Global,
    numbers: &[u32],
    first: &Book,
    own: &[u32],
    second: &Book,
    other: &[u32],
) -> Result<bool, Memory>
    requires first { All (λ v. v < length first.now.variants) own.now }
    requires second { All (λ v. v < length second.now.variants) other.now }
    ensures { IfOk result (λ same. same ≡ true
        → AreSameUsages numbers.now first.now own.now second.now other.now) }
{
    if own.len() != other.len() {
        return Ok(false);
    }
    for place in 0..own.len() {
        if !same_usage(alloc, numbers, first, own[place], second, other[place])? {
            return Ok(false);
        }
    }
    Ok(true)
}

fn same_usage(
    alloc: Global,
    numbers: &[u32],
    first: &Book,
    own: u32,
    second: &Book,
    other: u32,
) -> Result<bool, Memory>
    requires first { own < length first.now.variants }
    requires second { other < length second.now.variants }
    ensures { IfOk result (λ same. same ≡ true → IsSameUsage numbers.now first.now second.now own other) }
{
    let variant = &first.variants()[own as usize];
    same_variant(alloc, numbers, variant, &second.variants()[other as usize])
}

// Whether two variants use the same part, and as many of it, where the same formula is true.
fn same_variant(
    alloc: Global,
    numbers: &[u32],
    own: &Variant,
    other: &Variant,
) -> Result<bool, Memory>
    ensures { IfOk result (λ same. same ≡ true → IsSameVariant numbers.now own.now other.now) }
{
    if !same_use(own, other) {
        return Ok(false);
    }
    let renamed = other.rule.with_leaves(alloc, &Renamed(numbers))?;
    Ok(own.rule.nodes() == renamed.nodes())
}
