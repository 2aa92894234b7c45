//! The periods of rules that aren't active through the whole term. Each has a variable behind those of the codes.
ghost use Rattle.std.specs.Prelude.{◌≡◌, ◌+◌, ◌^◌, ◌<◌, ◌≤◌, ◌&&◌, ℕ, IfOk, OnOk, length, map, true};
ghost use Rattle.std.specs.List.{list_any};
ghost use Rattle.book_clauses.specs.BookClauses.{AllHaveGuards, construct_days, guard_in, has_guard, is_whole, literals_on, same_days, supplement_days};
ghost use Rattle.book_model.specs.declared.record.Slice.{Slice};

use book_model::{Book, Construct, Slice, Supplement, active};
use clause_pool::Lit;
use pb_base::{Day, Memory};
use std::alloc::Global;

/// The periods of a book's rules.
pub(crate) fn periods_of(alloc: Global, book: &Book) -> Result<Vec<Slice>, Memory>
    ensures few { IfOk result (λ ps.
        length ps.items ≤ length book.now.supplements + length book.now.constructs) }
    ensures supplements { IfOk result (λ ps.
        AllHaveGuards book.now ps.items (map supplement_days book.now.supplements)) }
    ensures constructs { IfOk result (λ ps.
        AllHaveGuards book.now ps.items (map construct_days book.now.constructs)) }
{
    let mut periods = Vec::new(alloc);
    put_supplements(&mut periods, book, book.supplements())?;
    put_constructs(&mut periods, book, book.constructs())?;
    Ok(periods)
}

// Those of supplementing rules.
fn put_supplements(
    periods: &mut Vec<Slice>,
    book: &Book,
    rules: &[Supplement],
) -> Result<(), Memory>
    ensures few { length periods.new.items ≤ length periods.old.items + length rules.now }
    ensures kept { (days : Slice) → has_guard book.now periods.old.items days ≡ true
        → has_guard book.now periods.new.items days ≡ true }
    ensures have { OnOk result
        (AllHaveGuards book.now periods.new.items (map supplement_days rules.now)) }
{
    for rule in rules {
        let days = Slice {
            first: rule.from,
            last: rule.until,
        };
        put_period(periods, book, days)?;
    }
    Ok(())
}

// Those of constructibility rules.
fn put_constructs(periods: &mut Vec<Slice>, book: &Book, rules: &[Construct]) -> Result<(), Memory>
    ensures few { length periods.new.items ≤ length periods.old.items + length rules.now }
    ensures kept { (days : Slice) → has_guard book.now periods.old.items days ≡ true
        → has_guard book.now periods.new.items days ≡ true }
    ensures have { OnOk result
        (AllHaveGuards book.now periods.new.items (map construct_days rules.now)) }
{
    for rule in rules {
        let days = Slice {
            first: rule.from,
            last: rule.until,
        };
        put_period(periods, book, days)?;
    }
    Ok(())
}

// One more, unless it is there or is the whole term.
fn put_period(periods: &mut Vec<Slice>, book: &Book, days: Slice) -> Result<(), Memory>
    ensures few { length periods.new.items ≤ length periods.old.items + 1 }
    ensures kept { (d : Slice) → has_guard book.now periods.old.items d ≡ true
        → has_guard book.now periods.new.items d ≡ true }
    ensures has { OnOk result (has_guard book.now periods.new.items days ≡ true) }
{
    if has_guard(book, periods, days) {
        return Ok(());
    }
    periods.push(days)?;
    Ok(())
}

// Whether the variable of a period is known, or it needs none.
fn has_guard(book: &Book, periods: &[Slice], days: Slice) -> bool
    ensures { result ≡ has_guard book.now periods.now days }
{
    is_whole(book, days) || is_known(periods, days)
}

// Whether a period is one of these.
fn is_known(periods: &[Slice], days: Slice) -> bool
    ensures { result ≡ list_any (λ p. same_days p days) periods.now }
{
    periods.iter().any(|period| is_same(*period, days))
}

// Whether the whole term is in a period.
fn is_whole(book: &Book, days: Slice) -> bool
    ensures { result ≡ is_whole book.now days }
{
    let term = book.term();
    days.first <= term.first && term.last <= days.last
}

fn is_same(one: Slice, other: Slice) -> bool
    ensures { result ≡ same_days one other }
{
    one.first == other.first && one.last == other.last
}

/// The variable of a record's period. None where it is active through the whole term.
pub(crate) fn guard_of(book: &Book, periods: &[Slice], days: Slice) -> Option<u32>
    requires { length book.now.codes + length periods.now < 2 ^ 32 }
    ensures { result ≡ guard_in book.now periods.now days }
{
    if is_whole(book, days) {
        return None;
    }
    let mut var = book.codes().len();
    for period in periods {
        if is_same(*period, days) {
            return Some(var);
        }
        var += 1;
    }
    None
}

/// What says which of these periods a day is in: for each its variable, or the complement.
pub fn periods_on(
    alloc: Global,
    book: &Book,
    periods: &[Slice],
    day: Day,
) -> Result<Vec<Lit>, Memory>
    requires { length book.now.codes + length periods.now < 2 ^ 32 }
    ensures { IfOk result (λ lits. lits.items ≡ literals_on (length book.now.codes) periods.now day) }
{
    let mut lits = Vec::new(alloc);
    let mut var = book.codes().len();
    for period in periods {
        let lit = Lit::new(var, active(period.first, period.last, day));
        lits.push(lit)?;
        var += 1;
    }
    Ok(lits)
}
