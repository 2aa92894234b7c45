//! What a row states by itself, with the text of its rule.
ghost use Rattle.std.specs.Prelude.{◌≡◌, ◌≤◌, ◌++◌, ◌∷◌, [], List, IfOk, length, if◌then◌else◌};
ghost use Rattle.pb_base.specs.Answers.{Gives, Leaves};
ghost use Rattle.pb_base.specs.declared.limits.TheConstants.{MOST_TEXT_BYTES};
ghost use Rattle.book_text.specs.Rows.{IsShort};
ghost use Rattle.requirements.specs.Stated.{head_of, require_head, uses_head, text_of, stated_with, added_id, ids_of};
ghost use Rattle.requirements.specs.declared.stated.Stated.{Stated};

use crate::fault::RequirementKind;
use crate::requirement::MOST_REQUIREMENTS;
use book_text::{BookKind, Days, TextRow, days_in, field, is_width, name_in, part_in};
use pb_base::{Body, Fail, Id, Memory, Part, Sequence, Table};
use std::alloc::Global;

/// What a row states but for its rule: a part, where it is about one.
#[derive(Clone, Copy)]
pub struct Head {
    pub id: Id,
    pub part: Option<Part>,
    pub days: Days,
}

/// What a row states, with the text of its rule.
#[derive(Drop)]
pub struct Stated {
    pub head: Head,
    pub text: Body,
}

// The head of a row by itself, on a book of this term.
fn head_of(term: Days, row: &TextRow<'_>) -> Result<Head, BookKind>
    ensures { result ≡ head_of term row.now }
{
    let word = field(row, 0);
    if word == b"require".as_slice() {
        require_head(term, row)
    } else if word == b"uses".as_slice() {
        uses_head(term, row)
    } else {
        Err(BookKind::UnknownKind)
    }
}

fn require_head(term: Days, row: &TextRow<'_>) -> Result<Head, BookKind>
    ensures { result ≡ require_head term row.now }
{
    if !is_width(row, 5) {
        return Err(BookKind::FieldCount);
    }
    let id = name_in(field(row, 1))?;
    let days = days_in(term, field(row, 3), field(row, 4))?;
    Ok(Head {
        id,
        part: None,
        days,
    })
}

fn uses_head(term: Days, row: &TextRow<'_>) -> Result<Head, BookKind>
    ensures { result ≡ uses_head term row.now }
{
    if !is_width(row, 6) {
        return Err(BookKind::FieldCount);
    }
    let id = name_in(field(row, 1))?;
    let part = part_in(field(row, 2))?;
    let days = days_in(term, field(row, 4), field(row, 5))?;
    Ok(Head {
        id,
        part: Some(part),
        days,
    })
}

// The text of the rule of a row with this head.
fn text_of<'r>(head: &Head, row: &'r TextRow<'_>) -> &'r [u8]
    ensures { result.now ≡ text_of head.now.part row.now }
{
    match head.part {
        None => field(row, 2),
        Some(_) => field(row, 3),
    }
}

fn copied(alloc: Global, text: &[u8]) -> Result<Body, Memory>
    ensures { IfOk result (λ body. body ≡ text.now) }
{
    let bytes = Vec::from_slice(alloc, text)?;
    Ok(Sequence::of(bytes))
}

/// What a row states, on a book of this term. Its id joins those of the rows before it.
pub fn state_row(
    alloc: Global,
    term: Days,
    row: &TextRow<'_>,
    ids: &mut Table<Id>,
) -> Result<Stated, Fail<RequirementKind>>
    requires short { IsShort row.now }
    ensures stated { (before : List Stated) → ids.old ≡ ids_of before
        → Gives result (λ s. before ++ s ∷ []) (stated_with term before row.now) }
    ensures ids { IfOk result (λ s. ids.new ≡ ids.old ++ s.head.id ∷ []) }
    ensures short { IfOk result (λ s. length s.text ≤ MOST_TEXT_BYTES) }
{
    match head_of(term, row) {
        Ok(head) => {
            add_id(ids, head.id)?;
            let text = copied(alloc, text_of(&head, row))?;
            Ok(Stated { head, text })
        }
        Err(kind) => Err(Fail::Refused(RequirementKind::AsInBooks(kind))),
    }
}

// Adds an id, which is new. A name that is there already is refused as such, even where there is no room for another.
fn add_id(ids: &mut Table<Id>, id: Id) -> Result<(), Fail<RequirementKind>>
    ensures { Leaves result ids.new (added_id ids.old id) }
{
    if ids.len() as usize >= MOST_REQUIREMENTS {
        return Err(Fail::Refused(full(ids.place_of(&id).is_some())));
    }
    match ids.add(id) {
        Ok(_) => Ok(()),
        Err(fault) => Err(fault.map(|_| RequirementKind::AsInBooks(BookKind::Duplicate))),
    }
}

// The fault of an id where there is no room for another, by whether it is there already.
fn full(has: bool) -> RequirementKind
    ensures { result ≡ (if has then RequirementKind.AsInBooks BookKind.Duplicate else RequirementKind.TooMany) }
{
    if has {
        RequirementKind::AsInBooks(BookKind::Duplicate)
    } else {
        RequirementKind::TooMany
    }
}
