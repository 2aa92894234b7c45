//! The keys of a position: the parts with their quantities that its variants use in the one book or in the other.
ghost use Rattle.std.specs.Prelude.{◌≡◌, ◌++◌, ◌<◌, All, IfOk, OnOk, length, true};
ghost use Rattle.std.specs.List.{list_any};
ghost use Rattle.chosen_parts.specs.Chosen.{use_of, part_use, is_same_use};
ghost use Rattle.book_compare.specs.Asked.{is_variant_of, usages_in, usages_at, uses, new_keys, keys_of, literals_with};

use book_model::{Book, Variant};
use chosen_parts::{PartUse, place_of_position};
use clause_pool::Lit;
use clausify::Usage;
use pb_base::{Id, Memory};
use std::alloc::Global;

/// The usages of the variants of the position of an id; none where the book has no such position. The place is a guess where the
/// position stands.
pub(crate) fn usages_at(
    alloc: Global,
    book: &Book,
    usages: &[Usage],
    id: &Id,
    guess: usize,
) -> Result<Vec<Usage>, Memory>
    ensures usages { IfOk result (λ us. us.items ≡ usages_at book.now id.now usages.now) }
    ensures in_range { IfOk result (λ us. All (λ u. u.variant < length book.now.variants) us.items) }
{
    match place_of_position(book, id, guess) {
        Some(place) => usages_in(alloc, book, usages, place),
        None => Ok(Vec::new(alloc)),
    }
}

fn usages_in(
    alloc: Global,
    book: &Book,
    usages: &[Usage],
    position: u32,
) -> Result<Vec<Usage>, Memory>
    ensures usages { IfOk result (λ us. us.items ≡ usages_in book.now position usages.now) }
    ensures in_range { IfOk result (λ us. All (λ u. u.variant < length book.now.variants) us.items) }
{
    let mut own = Vec::new(alloc);
    for usage in usages {
        if is_variant_of(book, position, usage.variant) {
            own.push(*usage)?;
        }
    }
    Ok(own)
}

// Whether the variant at a place is one of the position's.
fn is_variant_of(book: &Book, position: u32, variant: u32) -> bool
    ensures value { result ≡ is_variant_of book.now position variant }
    ensures within { result ≡ true → variant < length book.now.variants }
{
    match book.variants().get(variant as usize) {
        Some(variant) => variant.position == position,
        None => false,
    }
}

/// The keys of the variants of these usages, of the first book and of the second.
pub(crate) fn keys_of(
    alloc: Global,
    first: &Book,
    first_usages: &[Usage],
    second: &Book,
    second_usages: &[Usage],
) -> Result<Vec<PartUse>, Memory>
    requires first { All (λ u. u.variant < length first.now.variants) first_usages.now }
    requires second { All (λ u. u.variant < length second.now.variants) second_usages.now }
    ensures { let first_uses = uses first.now first_usages.now in
        let second_uses = uses second.now second_usages.now in
        IfOk result (λ keys. keys.items ≡ keys_of first_uses second_uses) }
{
    let mut keys = Vec::new(alloc);
    push_keys(&mut keys, first, first_usages)?;
    push_keys(&mut keys, second, second_usages)?;
    Ok(keys)
}

// Puts the keys that are not there yet behind the others.
fn push_keys(keys: &mut Vec<PartUse>, book: &Book, usages: &[Usage]) -> Result<(), Memory>
    requires { All (λ u. u.variant < length book.now.variants) usages.now }
    ensures { let uses = uses book.now usages.now in
        OnOk result (keys.new.items ≡ keys.old.items ++ new_keys keys.old.items uses) }
{
    for usage in usages {
        let variant = variant_of(book, *usage);
        if !has_key(keys, variant) {
            keys.push(PartUse::of(variant))?;
        }
    }
    Ok(())
}

// The variant of a usage.
fn variant_of(book: &Book, usage: Usage) -> &Variant
    requires { usage.variant < length book.now.variants }
    ensures { use_of result.now ≡ part_use book.now usage.variant }
{
    &book.variants()[usage.variant as usize]
}

fn has_key(keys: &[PartUse], variant: &Variant) -> bool
    ensures { result ≡ list_any (λ key. is_same_use (use_of variant.now) key) keys.now }
{
    keys.iter().any(|key| key.is_of(variant))
}

fn uses_key(book: &Book, usage: Usage, key: &PartUse) -> bool
    requires { usage.variant < length book.now.variants }
    ensures { result ≡ is_same_use (part_use book.now usage.variant) key.now }
{
    key.is_of(variant_of(book, usage))
}

/// The literals of the usages whose variants have a key.
pub(crate) fn literals_with(
    alloc: Global,
    book: &Book,
    usages: &[Usage],
    key: &PartUse,
) -> Result<Vec<Lit>, Memory>
    requires { All (λ u. u.variant < length book.now.variants) usages.now }
    ensures { IfOk result (λ lits. lits.items ≡ literals_with book.now usages.now key.now) }
{
    let mut lits = Vec::new(alloc);
    for usage in usages {
        if uses_key(book, *usage, key) {
            lits.push(usage.literal)?;
        }
    }
    Ok(lits)
}
