//! The notes on a requirement, by what is answered of it on the slices.
ghost use Rattle.std.specs.Prelude.{◌≡◌, ◌++◌, ◌∷◌, [], None, IfOk, OnOk, option_map, slice_index_or};
ghost use Rattle.std.specs.List.{AllZip, list_any};
ghost use Rattle.pb_base.specs.InParts.{InParts};
ghost use Rattle.kept_requirements.specs.Notes.{IsRow, OwnNotes, parts_at, lines_of, is_unmet, is_meant, is_met, is_left, is_about_part, runs_on, note_of, undecided_on, with_run, added, touches, extends, extended, last_day};
ghost use Rattle.kept_requirements.specs.declared.note.RequirementNote.TheVariants.{Idle};

use crate::cells::{Part, Row};
use crate::note::RequirementNote;
use book_model::{Book, Slice};
use pb_base::{Id, Memory};
use requirements::{Claim, Requirement};
use rules_met::RuleAnswer;
use std::alloc::Global;

/// The notes on requirements, in their sequence, with a row of cells for each slice.
pub(crate) fn notes_of(
    alloc: Global,
    book: &Book,
    slices: &[Slice],
    requirements: &[Requirement],
    budget: u32,
    rows: &[Row],
) -> Result<Vec<RequirementNote>, Memory>
    requires rows { AllZip (IsRow book.now budget requirements.now) slices.now rows.now }
    ensures { IfOk result (λ notes. InParts (OwnNotes book.now budget slices.now) requirements.now notes.items) }
{
    let mut notes = Vec::new(alloc);
    for (place, requirement) in requirements.iter().enumerate() {
        let parts = parts_at(alloc, rows, place)?;
        let mut own = lines_of(alloc, requirement, &parts)?;
        notes.append(&mut own)?;
    }
    Ok(notes)
}

// What is answered of the requirement at a place, where it is asked.
fn parts_at(alloc: Global, rows: &[Row], place: usize) -> Result<Vec<Part>, Memory>
    ensures { IfOk result (λ parts. parts.items ≡ parts_at rows.now place) }
{
    let mut parts = Vec::new(alloc);
    for row in rows {
        if let Some(part) = cell_at(row, place) {
            let part = part.copy(alloc)?;
            parts.push(part)?;
        }
    }
    Ok(parts)
}

// The cell at a place, where it is not empty.
#[tactic(auto, using(crate::proofs::CellLaws::cell_there, crate::proofs::CellLaws::cell_past))]
fn cell_at(row: &Row, place: usize) -> Option<&Part>
    ensures { option_map (λ part. part.now) result ≡ slice_index_or row.now place None }
{
    match row.as_slice().get(place) {
        Some(Some(part)) => Some(part),
        Some(None) => None,
        None => None,
    }
}

// The notes on a requirement of which this is answered.
fn lines_of(
    alloc: Global,
    requirement: &Requirement,
    parts: &[Part],
) -> Result<Vec<RequirementNote>, Memory>
    ensures { IfOk result (λ notes. notes.items ≡ lines_of requirement.now parts.now) }
{
    let unmet = is_unmet(&requirement.claim, parts);
    let notes = runs(alloc, requirement.id, unmet, parts)?;
    if parts.is_empty() || (unmet && notes.is_empty()) {
        return idle(alloc, requirement.id);
    }
    Ok(notes)
}

fn idle(alloc: Global, id: Id) -> Result<Vec<RequirementNote>, Memory>
    ensures { IfOk result (λ notes. notes.items ≡ Idle id ∷ []) }
{
    let mut notes = Vec::new(alloc);
    notes.push(RequirementNote::Idle { id })?;
    Ok(notes)
}

// Whether a requirement is about a part, and no car was found that meets its rule.
fn is_unmet(claim: &Claim, parts: &[Part]) -> bool
    ensures { result ≡ is_unmet claim.now parts.now }
{
    is_about_part(claim) && !any_meant(parts)
}

fn any_meant(parts: &[Part]) -> bool
    ensures { result ≡ list_any is_meant parts.now }
{
    parts.iter().any(|part| is_meant(part))
}

fn is_about_part(claim: &Claim) -> bool
    ensures { result ≡ is_about_part claim.now }
{
    match claim {
        Claim::Meets(_) => false,
        Claim::Uses { .. } => true,
    }
}

// Whether a car was found that meets the rule.
fn is_meant(part: &Part) -> bool
    ensures { result ≡ is_meant part.now }
{
    is_met(&part.broken) || is_met(&part.meant)
}

fn is_met(answer: &RuleAnswer) -> bool
    ensures { result ≡ is_met answer.now }
{
    match answer {
        RuleAnswer::Met(_) => true,
        RuleAnswer::NotMet | RuleAnswer::Left => false,
    }
}

fn is_left(answer: &RuleAnswer) -> bool
    ensures { result ≡ is_left answer.now }
{
    match answer {
        RuleAnswer::Left => true,
        RuleAnswer::NotMet | RuleAnswer::Met(_) => false,
    }
}

// The runs of days of which something is told.
fn runs(alloc: Global, id: Id, unmet: bool, parts: &[Part]) -> Result<Vec<RequirementNote>, Memory>
    ensures { IfOk result (λ notes. notes.items ≡ runs_on unmet id [] parts.now) }
{
    let mut notes = Vec::new(alloc);
    for part in parts {
        let note = note_of(alloc, id, unmet, part)?;
        add_run(&mut notes, note)?;
    }
    Ok(notes)
}

// What is told of the days of a slice.
fn note_of(
    alloc: Global,
    id: Id,
    unmet: bool,
    part: &Part,
) -> Result<Option<RequirementNote>, Memory>
    ensures { IfOk result (λ note. note ≡ note_of unmet id part.now) }
{
    match &part.broken {
        RuleAnswer::Met(car) => {
            let car = car.copy(alloc)?;
            Ok(Some(RequirementNote::Fails {
                id,
                first: part.first,
                last: part.last,
                car,
            }))
        }
        RuleAnswer::Left => Ok(Some(undecided(id, part))),
        RuleAnswer::NotMet => {
            if unmet && is_left(&part.meant) {
                Ok(Some(undecided(id, part)))
            } else {
                Ok(None)
            }
        }
    }
}

fn undecided(id: Id, part: &Part) -> RequirementNote
    ensures { result ≡ undecided_on id part.now }
{
    RequirementNote::Undecided {
        id,
        first: part.first,
        last: part.last,
    }
}

// Puts what is told of further days behind the rest.
fn add_run(notes: &mut Vec<RequirementNote>, note: Option<RequirementNote>) -> Result<(), Memory>
    ensures { OnOk result (notes.new.items ≡ with_run notes.old.items note) }
{
    match note {
        None => Ok(()),
        Some(note) => add(notes, note),
    }
}

// The same of a note, which joins the last one where both are of one kind and their days touch.
fn add(notes: &mut Vec<RequirementNote>, note: RequirementNote) -> Result<(), Memory>
    ensures { OnOk result (notes.new.items ≡ added notes.old.items note) }
{
    match notes.pop() {
        None => {
            notes.push(note)?;
            Ok(())
        }
        Some(before) => add_behind(notes, before, note),
    }
}

// The same where this note is the last before it.
#[tactic(auto, using(crate::proofs::RunLaws::joins, crate::proofs::RunLaws::stands))]
fn add_behind(
    notes: &mut Vec<RequirementNote>,
    before: RequirementNote,
    note: RequirementNote,
) -> Result<(), Memory>
    ensures { OnOk result (notes.new.items ≡ added (notes.old.items ++ before ∷ []) note) }
{
    if extends(&before, &note) {
        let whole = extended(before, &note);
        notes.push(whole)?;
        return Ok(());
    }
    notes.push(before)?;
    notes.push(note)?;
    Ok(())
}

// Whether a note goes on where another ends.
fn extends(before: &RequirementNote, note: &RequirementNote) -> bool
    ensures { result ≡ extends before.now note.now }
{
    match (before, note) {
        (RequirementNote::Fails { last, .. }, RequirementNote::Fails { first, .. }) => touches(
            *last, *first,
        ),
        (RequirementNote::Undecided { last, .. }, RequirementNote::Undecided { first, .. }) =>
            touches(*last, *first),
        _ => false,
    }
}

// Whether a day is the one after another.
fn touches(last: u32, first: u32) -> bool
    ensures { result ≡ touches last first }
{
    last < first && first - last == 1
}

// A note that another goes on, with the days of both.
fn extended(before: RequirementNote, note: &RequirementNote) -> RequirementNote
    ensures { result ≡ extended before note.now }
{
    match before {
        RequirementNote::Fails {
            id,
            first,
            last,
            car,
        } => RequirementNote::Fails {
            id,
            first,
            last: last_day(note, last),
            car,
        },
        RequirementNote::Undecided { id, first, last } => RequirementNote::Undecided {
            id,
            first,
            last: last_day(note, last),
        },
        RequirementNote::Idle { id } => RequirementNote::Idle { id },
    }
}

// The last day of a note, or the other day where it has none.
fn last_day(note: &RequirementNote, other: u32) -> u32
    ensures { result ≡ last_day note.now other }
{
    match note {
        RequirementNote::Fails { last, .. } => *last,
        RequirementNote::Undecided { last, .. } => *last,
        RequirementNote::Idle { .. } => other,
    }
}
