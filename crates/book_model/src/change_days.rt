//! The days on which the active records of a book change.
ghost use Rattle.std.specs.Prelude.{◌≡◌, ◌≤◌, ◌+◌, ◌*◌, [], IfOk, OnOk, length, filter, vec_len};
ghost use Rattle.book_model.specs.Slices.{changes_at, days_in};
ghost use Rattle.book_model.specs.DayLists.{AddsDays, is_day_of, turns_within, changes_within};

use crate::activity::active;
use crate::record::Slice;
use pb_base::{Day, Memory};
use std::alloc::Global;

/// The days of a term, in order, on which one of these periods begins or has ended the day before, and the first day of the term.
pub fn change_days(alloc: Global, term: Slice, periods: &[Slice]) -> Result<Vec<Day>, Memory>
    requires { term.first ≤ term.last }
    ensures days { IfOk result (λ days.
        days.items ≡ filter (changes_at term.first periods.now) (days_in term)) }
    ensures count { IfOk result (λ days. vec_len days ≤ 2 * length periods.now + 1) }
{
    let mut days = turning_days(alloc, term, periods)?;
    days.sort_unstable();
    days.dedup();
    Ok(days)
}

// The same days in no order, some of them more than once.
fn turning_days(alloc: Global, term: Slice, periods: &[Slice]) -> Result<Vec<Day>, Memory>
    requires { term.first ≤ term.last }
    ensures { let most = 2 * length periods.now + 1 in
        IfOk result (λ days. AddsDays [] days.items most (changes_within term periods.now)) }
{
    let mut days = Vec::new(alloc);
    days.push(term.first)?;
    for period in periods {
        push_turns(&mut days, term, *period)?;
    }
    Ok(days)
}

// Puts the days of the term behind the others on which a period begins or has ended the day before.
fn push_turns(days: &mut Vec<Day>, term: Slice, period: Slice) -> Result<(), Memory>
    ensures { OnOk result (AddsDays days.old.items days.new.items 2 (turns_within term period)) }
{
    push_day_of(days, term, period.first)?;
    if period.last < term.last {
        push_day_of(days, term, period.last + 1)?;
    }
    Ok(())
}

fn push_day_of(days: &mut Vec<Day>, term: Slice, day: Day) -> Result<(), Memory>
    ensures { OnOk result (AddsDays days.old.items days.new.items 1 (is_day_of term day)) }
{
    if active(term.first, term.last, day) {
        days.push(day)?;
    }
    Ok(())
}
