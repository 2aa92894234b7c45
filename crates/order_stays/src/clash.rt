//! Codes of which it is known that no car has them all.
ghost use Rattle.std.specs.Prelude.{◌≡◌, ◌==◌, ◌<◌, ◌≤◌, All, IfOk, IfSome, length};
ghost use Rattle.std.specs.List.{list_all, list_any};
ghost use Rattle.pb_base.specs.declared.limits.TheConstants.{MOST_BUDGET, MOST_CODES};
ghost use Rattle.clausify.specs.Items.{rule_items};
ghost use Rattle.item_search.specs.Search.{IsOver};
ghost use Rattle.order_stays.specs.Stays.{IsFoundWith, NoneWith, codes_of};

use crate::finding::{Found, find_with};
use blame::Entry;
use book_model::Book;
use pb_base::{Day, Memory};
use solver::Solver;
use std::alloc::Global;

/// The codes among entries.
pub(crate) fn codes_of(alloc: Global, entries: &[Entry]) -> Result<Vec<u32>, Memory>
    ensures { IfOk result (λ codes. codes.items ≡ codes_of entries.now) }
{
    let mut codes = Vec::new(alloc);
    for entry in entries {
        match *entry {
            Entry::Supplement(_) => {}
            Entry::Construct(_) => {}
            Entry::Chosen(code) => codes.push(code)?,
        }
    }
    Ok(codes)
}

/// Looks for a car of the day that has these codes, unless those are among them of which it is known that no car has them all.
pub(crate) fn find_unless(
    alloc: Global,
    book: &Book,
    day: Day,
    solver: &mut Solver,
    kept: &[u32],
    budget: u32,
    clash: Option<&[u32]>,
) -> Result<Found, Memory>
    requires over { IsOver (length book.now.codes) (rule_items book.now day) solver.old }
    requires kept { All (λ c. c < length book.now.codes) kept.now }
    requires few { length kept.now ≤ MOST_CODES }
    requires clash { IfSome clash (λ codes. NoneWith book.now day codes.now) }
    requires some { 0 < budget }
    requires most { budget ≤ MOST_BUDGET }
    ensures over { IsOver (length book.now.codes) (rule_items book.now day) solver.new }
    ensures found { IfOk result (IsFoundWith book.now day kept.now budget) }
{
    match clash {
        Some(codes) => find_beside(alloc, book, day, solver, kept, budget, codes),
        None => find_with(alloc, book, day, solver, kept, budget),
    }
}

// The same where that is known.
fn find_beside(
    alloc: Global,
    book: &Book,
    day: Day,
    solver: &mut Solver,
    kept: &[u32],
    budget: u32,
    codes: &[u32],
) -> Result<Found, Memory>
    requires over { IsOver (length book.now.codes) (rule_items book.now day) solver.old }
    requires kept { All (λ c. c < length book.now.codes) kept.now }
    requires few { length kept.now ≤ MOST_CODES }
    requires clash { NoneWith book.now day codes.now }
    requires some { 0 < budget }
    requires most { budget ≤ MOST_BUDGET }
    ensures over { IsOver (length book.now.codes) (rule_items book.now day) solver.new }
    ensures found { IfOk result (IsFoundWith book.now day kept.now budget) }
{
    if are_among(kept, codes) {
        return Ok(Found::NoCar);
    }
    find_with(alloc, book, day, solver, kept, budget)
}

// Whether codes are all among those that are kept.
fn are_among(kept: &[u32], codes: &[u32]) -> bool
    ensures { result ≡ list_all (λ c. list_any (λ k. k == c) kept.now) codes.now }
{
    codes.iter().all(|code| is_among(kept, *code))
}

fn is_among(kept: &[u32], code: u32) -> bool
    ensures { result ≡ list_any (λ k. k == code) kept.now }
{
    kept.iter().any(|one| *one == code)
}
