//! All positions of two books.
ghost use Rattle.std.specs.Prelude.{◌≡◌, ℕ, ◌++◌, ◌<◌, ◌≤◌, IfOk, OnOk, None, Some};
ghost use Rattle.std.specs.Option.{option_to_list};
ghost use Rattle.pb_base.specs.Answers.{IfRefused};
ghost use Rattle.pb_base.specs.declared.limits.TheConstants.{MOST_BUDGET};
ghost use Rattle.book_model.specs.Activity.{is_within};
ghost use Rattle.chosen_parts.specs.Chosen.{position_place, position_ids, added_ids};
ghost use Rattle.book_compare.specs.Comparison.{IsComparison, outside};
ghost use Rattle.book_compare.specs.Comparing.{AreBooks, IsComparing};
ghost use Rattle.book_compare.specs.Searched.{IsPut, ArePut, AddsPlaces};

use crate::comparing::Comparing;
use crate::joint::Joint;
use crate::note::{CompareNote, Outside};
use crate::notes::notes_on;
use crate::packs::notes_by;
use crate::place::Place;
use crate::same::same_at;
use book_model::{Book, active};
use chosen_parts::place_of_position;
use pb_base::{Day, Fail, Id, Memory};
use release::Released;
use std::alloc::Global;
use std::thread::Threads;

/// What changes from one book to another on a day: for each position, first those of the first book, then those that only the
/// second has, a car that gets other parts there, or a note that the search was given up behind so many learnt clauses. A position
/// without a note is the same in each car that both books allow. A day outside of one book's term is refused.
pub fn compare(
    alloc: Global,
    first: &Released,
    second: &Released,
    day: Day,
    budget: u32,
) -> Result<Vec<CompareNote>, Fail<Outside>>
    requires some { 0 < budget }
    requires most { budget ≤ MOST_BUDGET }
    ensures notes { IfOk result (λ notes. IsComparison first.now.book second.now.book day budget notes.items) }
    ensures inside { IfOk result (λ _. outside first.now.book second.now.book day ≡ None) }
    ensures outside { IfRefused result (λ book. outside first.now.book second.now.book day ≡ Some book) }
{
    let one = first.book();
    let other = second.book();
    let _codes = one.codes();
    let _others = other.codes();
    match outside(one, other, day) {
        Some(book) => Err(Fail::Refused(book)),
        None => Ok(compare_on(alloc, one, other, day, budget)?),
    }
}

/// The same by so many workers, who share the positions that have to be searched, each with a run of neighbours.
pub fn compare_by<R: Threads + Sync>(
    rt: &R,
    alloc: Global,
    first: &Released,
    second: &Released,
    day: Day,
    budget: u32,
    workers: u32,
) -> Result<Vec<CompareNote>, Fail<Outside>>
    requires some { 0 < budget }
    requires most { budget ≤ MOST_BUDGET }
    requires workers { 0 < workers }
    ensures notes { IfOk result (λ notes.
        IsComparison first.now.book second.now.book day budget notes.items) }
    ensures inside { IfOk result (λ _. outside first.now.book second.now.book day ≡ None) }
    ensures outside { IfRefused result (λ book. outside first.now.book second.now.book day ≡ Some book) }
{
    let one = first.book();
    let other = second.book();
    let _codes = one.codes();
    let _others = other.codes();
    match outside(one, other, day) {
        Some(book) => Err(Fail::Refused(book)),
        None => Ok(compare_on_by(rt, alloc, one, other, day, budget, workers)?),
    }
}

fn outside(first: &Book, second: &Book, day: Day) -> Option<Outside>
    ensures { result ≡ outside first.now second.now day }
{
    if !is_of_term(first, day) {
        return Some(Outside::First);
    }
    if !is_of_term(second, day) {
        return Some(Outside::Second);
    }
    None
}

fn is_of_term(book: &Book, day: Day) -> bool
    ensures { result ≡ is_within book.now.first book.now.last day }
{
    let term = book.term();
    active(term.first, term.last, day)
}

fn compare_on(
    alloc: Global,
    first: &Book,
    second: &Book,
    day: Day,
    budget: u32,
) -> Result<Vec<CompareNote>, Memory>
    requires books { AreBooks first.now second.now day }
    requires some { 0 < budget }
    requires most { budget ≤ MOST_BUDGET }
    ensures { IfOk result (λ notes. IsComparison first.now second.now day budget notes.items) }
{
    first.codes().names_law();
    let joint = Joint::of(alloc, first, second, day)?;
    let comparing = Comparing {
        joint,
        first,
        second,
        day,
    };
    compare_all(alloc, &comparing, budget)
}

fn compare_all(
    alloc: Global,
    comparing: &Comparing,
    budget: u32,
) -> Result<Vec<CompareNote>, Memory>
    requires ready { IsComparing comparing.now }
    requires some { 0 < budget }
    requires most { budget ≤ MOST_BUDGET }
    ensures { let c = comparing.now in
        IfOk result (λ notes. IsComparison c.first.now c.second.now c.day budget notes.items) }
{
    let places = places_to_search(alloc, comparing)?;
    let notes = notes_on(alloc, comparing, budget, &places)?;
    Ok(notes)
}

fn compare_on_by<R: Threads + Sync>(
    rt: &R,
    alloc: Global,
    first: &Book,
    second: &Book,
    day: Day,
    budget: u32,
    workers: u32,
) -> Result<Vec<CompareNote>, Memory>
    requires books { AreBooks first.now second.now day }
    requires some { 0 < budget }
    requires most { budget ≤ MOST_BUDGET }
    requires workers { 0 < workers }
    ensures { IfOk result (λ notes. IsComparison first.now second.now day budget notes.items) }
{
    first.codes().names_law();
    let joint = Joint::of(alloc, first, second, day)?;
    let comparing = Comparing {
        joint,
        first,
        second,
        day,
    };
    compare_all_by(rt, alloc, &comparing, budget, workers)
}

fn compare_all_by<R: Threads + Sync>(
    rt: &R,
    alloc: Global,
    comparing: &Comparing,
    budget: u32,
    workers: u32,
) -> Result<Vec<CompareNote>, Memory>
    requires ready { IsComparing comparing.now }
    requires some { 0 < budget }
    requires most { budget ≤ MOST_BUDGET }
    requires workers { 0 < workers }
    ensures { let c = comparing.now in
        IfOk result (λ notes. IsComparison c.first.now c.second.now c.day budget notes.items) }
{
    let places = places_to_search(alloc, comparing)?;
    let notes = notes_by(rt, alloc, comparing, budget, &places, workers)?;
    Ok(notes)
}

// The positions that have to be searched, since their variants aren't the same in both books.
fn places_to_search(alloc: Global, comparing: &Comparing) -> Result<Vec<Place>, Memory>
    requires { IsComparing comparing.now }
    ensures { let c = comparing.now in
        IfOk result (λ places. ArePut c.first.now c.second.now c.day places.items) }
{
    let mut places = Vec::new(alloc);
    put_first(alloc, &mut places, comparing)?;
    put_added(alloc, &mut places, comparing)?;
    Ok(places)
}

// The positions of the first book.
fn put_first(alloc: Global, places: &mut Vec<Place>, comparing: &Comparing) -> Result<(), Memory>
    requires { IsComparing comparing.now }
    ensures { let c = comparing.now in
        OnOk result (AddsPlaces c.first.now c.second.now c.day (position_ids c.first.now)
        places.old.items places.new.items) }
{
    for (place, position) in comparing.first.positions().iter().enumerate() {
        let found = place_of(alloc, comparing, &position.id, place)?;
        put(places, found)?;
    }
    Ok(())
}

// The positions that only the second book has.
fn put_added(alloc: Global, places: &mut Vec<Place>, comparing: &Comparing) -> Result<(), Memory>
    requires { IsComparing comparing.now }
    ensures { let c = comparing.now in
        OnOk result (AddsPlaces c.first.now c.second.now c.day (added_ids c.first.now c.second.now)
        places.old.items places.new.items) }
{
    for (place, position) in comparing.second.positions().iter().enumerate() {
        let found = place_if_added(alloc, comparing, &position.id, place)?;
        put(places, found)?;
    }
    Ok(())
}

// The position of an id, if it has to be searched. The guess is where it stands in one of the books.
fn place_of(
    alloc: Global,
    comparing: &Comparing,
    id: &Id,
    guess: usize,
) -> Result<Option<Place>, Memory>
    requires { IsComparing comparing.now }
    ensures { let c = comparing.now in
        IfOk result (λ place. IsPut c.first.now c.second.now c.day id.now (option_to_list place)) }
{
    if same_at(alloc, comparing, id, guess)? {
        return Ok(None);
    }
    Ok(Some(Place { id: *id, guess }))
}

// The same of a position of the second book, if the first lacks it.
fn place_if_added(
    alloc: Global,
    comparing: &Comparing,
    id: &Id,
    guess: usize,
) -> Result<Option<Place>, Memory>
    requires { IsComparing comparing.now }
    ensures added { let c = comparing.now in
        position_place c.first.now id.now ≡ None
        → IfOk result (λ place. IsPut c.first.now c.second.now c.day id.now (option_to_list place)) }
    ensures shared { (at : ℕ) → position_place comparing.now.first.now id.now ≡ Some at
        → IfOk result (λ place. place ≡ None) }
{
    if place_of_position(comparing.first, id, guess).is_some() {
        return Ok(None);
    }
    place_of(alloc, comparing, id, guess)
}

// Puts a position behind the others, if there is one.
fn put(places: &mut Vec<Place>, place: Option<Place>) -> Result<(), Memory>
    ensures { OnOk result (places.new.items ≡ places.old.items ++ option_to_list place) }
{
    match place {
        Some(place) => places.push(place)?,
        None => {}
    }
    Ok(())
}
