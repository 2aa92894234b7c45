//! The days of the records of a book.
ghost use Rattle.std.specs.Prelude.{◌≡◌, ◌≤◌, ◌+◌, IfOk, map, vec_len};
ghost use Rattle.pb_base.specs.declared.limits.TheConstants.{MOST_SUPPLEMENTS, MOST_CONSTRUCTS, MOST_GROUPS, MOST_POSITIONS, MOST_VARIANTS};
ghost use Rattle.book_model.specs.Slices.{days_from_to, periods_of};

use crate::book::Book;
use crate::record::{Construct, Position, Slice, Supplement, Variant};
use pb_base::{Day, Memory};
use std::alloc::Global;

/// The days of each record that has days, in the order of supplementing rules, constructibility rules, positions and variants.
pub fn periods_of(alloc: Global, book: &Book) -> Result<Vec<Slice>, Memory>
    ensures value { IfOk result (λ periods. periods.items ≡ periods_of book.now) }
    ensures limit { let most_rules = MOST_SUPPLEMENTS + MOST_CONSTRUCTS + MOST_GROUPS in
        IfOk result (λ periods. vec_len periods ≤ most_rules + MOST_POSITIONS + MOST_VARIANTS) }
{
    let mut periods = supplement_days(alloc, book.supplements())?;
    let constructs = construct_days(alloc, book.constructs())?;
    periods.extend_from_slice(&constructs)?;
    let positions = position_days(alloc, book.positions())?;
    periods.extend_from_slice(&positions)?;
    let variants = variant_days(alloc, book.variants())?;
    periods.extend_from_slice(&variants)?;
    Ok(periods)
}

fn supplement_days(alloc: Global, supplements: &[Supplement]) -> Result<Vec<Slice>, Memory>
    ensures { IfOk result (λ days. days.items ≡ map (λ s. days_from_to s.from s.until) supplements.now) }
{
    let days = supplements
        .iter()
        .map(|s| days(s.from, s.until))
        .collect(alloc)?;
    Ok(days)
}

fn construct_days(alloc: Global, constructs: &[Construct]) -> Result<Vec<Slice>, Memory>
    ensures { IfOk result (λ days. days.items ≡ map (λ c. days_from_to c.from c.until) constructs.now) }
{
    let days = constructs
        .iter()
        .map(|c| days(c.from, c.until))
        .collect(alloc)?;
    Ok(days)
}

fn position_days(alloc: Global, positions: &[Position]) -> Result<Vec<Slice>, Memory>
    ensures { IfOk result (λ days. days.items ≡ map (λ p. days_from_to p.from p.until) positions.now) }
{
    let days = positions
        .iter()
        .map(|p| days(p.from, p.until))
        .collect(alloc)?;
    Ok(days)
}

fn variant_days(alloc: Global, variants: &[Variant]) -> Result<Vec<Slice>, Memory>
    ensures { IfOk result (λ days. days.items ≡ map (λ v. days_from_to v.from v.until) variants.now) }
{
    let days = variants
        .iter()
        .map(|v| days(v.from, v.until))
        .collect(alloc)?;
    Ok(days)
}

fn days(first: Day, last: Day) -> Slice
    ensures { result ≡ days_from_to first last }
{
    Slice { first, last }
}
