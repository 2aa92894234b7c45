//! Books from their rows.
ghost use Rattle.std.specs.Prelude.{◌≡◌, ◌+◌, ◌<◌, ◌≤◌, ℕ, List, [], IfOk, MatchOption, None, Some, find, map, length, true, false};
ghost use Rattle.std.specs.List.{AllByRecursion, AllZip};
ghost use Rattle.keeper.specs.declared.rows.BookRow.{BookRow};
ghost use Rattle.pb_base.specs.Answers.{IfRefused};
ghost use Rattle.pb_base.specs.Names.{is_name, same_name};
ghost use Rattle.release.specs.Release.{IsRelease};
ghost use Rattle.order_desk.specs.Checked.{IsChecked, with_texts};
ghost use Rattle.order_desk.specs.RightRows.{first_wrong, has_reached, is_book_row};
ghost use Rattle.order_desk.specs.Rows.{book_row, book_rows, draft_row, withdrawn_rows};

use crate::checking::BookPlace;
use crate::lookup::released_as;
use crate::{Draft, Hands, KeptBook, MOST_BOOKS, SharedBook};
use keeper::BookRow;
use pb_base::{Fail, Id, Memory};
use release::Released;
use std::alloc::Global;
use std::collections::{BTreeMap, VecDeque};

/// The books of the rows, all in force, or the number, from 1, of the first row that isn't right. The hands check each
/// certificate again, and then the rows are gone through in their sequence.
pub(crate) fn books_of<H: Hands>(
    alloc: Global,
    hands: &H,
    drafts: &BTreeMap<Id, Draft>,
    rows: Vec<BookRow>,
) -> Result<Vec<KeptBook>, Fail<u32>>
    requires ready { H.AreReady hands.now }
    requires names { AllByRecursion (λ e. is_name e.0 ≡ true) drafts.now.entries }
    ensures right { IfOk result (λ books.
        first_wrong (is_book_row (map draft_row drafts.now.entries)) [] rows.items ≡ None) }
    ensures rows { IfOk result (λ books. book_rows 1 books.items ≡ rows.items) }
    ensures in_force { IfOk result (λ books. withdrawn_rows 1 books.items ≡ []) }
    ensures released { IfOk result (λ books. AllByRecursion (λ b. IsRelease b.released) books.items) }
    ensures wrong { IfRefused result (λ place.
        first_wrong (is_book_row (map draft_row drafts.now.entries)) [] rows.items ≡ Some place) }
{
    let mut books = Vec::new(alloc);
    let mut rest = VecDeque::from_vec(checked(alloc, hands, rows)?);
    while let Some(place) = rest.pop_front() {
        match book_from(alloc, drafts, &books, place) {
            Ok(book) => books.push(book)?,
            Err(Fail::Refused(())) => return Err(Fail::Refused(books.len() as u32 + 1)),
            Err(Fail::Memory) => return Err(Fail::Memory),
        }
    }
    Ok(books)
}

// The rows at their places, with what the hands made of each.
fn checked<H: Hands>(alloc: Global, hands: &H, rows: Vec<BookRow>) -> Result<Vec<BookPlace>, Memory>
    requires { H.AreReady hands.now }
    ensures { IfOk result (λ places. AllZip IsChecked rows.items places.items) }
{
    let mut places = places_of(alloc, rows)?;
    hands.check(alloc, &mut places);
    Ok(places)
}

// A place for each row.
fn places_of(alloc: Global, rows: Vec<BookRow>) -> Result<Vec<BookPlace>, Memory>
    ensures { IfOk result (λ places. map (λ p. p.row) places.items ≡ rows.items) }
{
    let mut places = Vec::with_capacity(alloc, rows.len())?;
    for row in rows {
        places.push(BookPlace {
            row,
            made: Err(Fail::Memory),
        })?;
    }
    Ok(places)
}

// The book of the row of this place behind these books, or a refusal where the row isn't right.
fn book_from(
    alloc: Global,
    drafts: &BTreeMap<Id, Draft>,
    books: &[KeptBook],
    place: BookPlace,
) -> Result<KeptBook, Fail<()>>
    requires names { AllByRecursion (λ e. is_name e.0 ≡ true) drafts.now.entries }
    ensures right { (row : BookRow) → IsChecked row place → IfOk result (λ book.
        is_book_row (map draft_row drafts.now.entries) (book_rows 1 books.now) row ≡ true) }
    ensures row { (row : BookRow) → IsChecked row place → IfOk result (λ book.
        book_row (length books.now + 1) book ≡ row) }
    ensures in_force { IfOk result (λ book. book.withdrawn ≡ false) }
    ensures released { IfOk result (λ book. IsRelease book.released) }
    ensures wrong { (row : BookRow) → IsChecked row place → IfRefused result (λ none.
        is_book_row (map draft_row drafts.now.entries) (book_rows 1 books.now) row ≡ false) }
{
    let BookPlace { row, made } = place;
    match made {
        Ok(released) => kept_from(alloc, drafts, books, row, released),
        Err(fail) => Err(fail.map(|_| ())),
    }
}

// The same of a row whose text and certificate make this release.
fn kept_from(
    alloc: Global,
    drafts: &BTreeMap<Id, Draft>,
    books: &[KeptBook],
    row: BookRow,
    released: Released,
) -> Result<KeptBook, Fail<()>>
    requires names { AllByRecursion (λ e. is_name e.0 ≡ true) drafts.now.entries }
    ensures right { IfOk result (λ book. is_book_row (map draft_row drafts.now.entries)
        (book_rows 1 books.now) (with_texts row released) ≡ true) }
    ensures row { IfOk result (λ book.
        book_row (length books.now + 1) book ≡ with_texts row released) }
    ensures in_force { IfOk result (λ book. book.withdrawn ≡ false) }
    ensures released { IfOk result (λ book. IsRelease book.released) }
    ensures wrong { IfRefused result (λ none. is_book_row (map draft_row drafts.now.entries)
        (book_rows 1 books.now) (with_texts row released) ≡ false) }
{
    if row.number != books.len() as u64 + 1 || books.len() >= MOST_BOOKS {
        return Err(Fail::Refused(()));
    }
    match Id::of(row.draft.as_slice()) {
        None => Err(Fail::Refused(())),
        Some(draft) => match reached(drafts, draft, &row, &released) {
            None => Err(Fail::Refused(())),
            Some(revision) => {
                if released_as(books, draft, revision).is_some() {
                    return Err(Fail::Refused(()));
                }
                let _book = released.book();
                Ok(KeptBook {
                    draft,
                    revision,
                    released: SharedBook::new(alloc, released)?,
                    withdrawn: false,
                })
            }
        },
    }
}

// The revision of the row, where the draft of this name has reached it and, where it is still the draft's,
// has the text of the release.
fn reached(
    drafts: &BTreeMap<Id, Draft>,
    name: Id,
    row: &BookRow,
    released: &Released,
) -> Option<u32>
    requires { name ≡ row.now.draft }
    ensures { MatchOption result
        (has_reached (find (λ draft. same_name draft.name row.now.draft)
        (map draft_row drafts.now.entries)) (with_texts row.now released.now) ≡ false)
        (λ revision. (has_reached (find (λ draft. same_name draft.name row.now.draft)
        (map draft_row drafts.now.entries)) (with_texts row.now released.now) ≡ true)
        × (revision ≡ row.now.revision)) }
{
    match drafts.get(&name) {
        None => None,
        Some(draft) => reached_by(draft, row, released),
    }
}

// The same of a draft that is there.
fn reached_by(draft: &Draft, row: &BookRow, released: &Released) -> Option<u32>
    ensures { (name : List ℕ) → MatchOption result
        (has_reached (Some (draft_row (name, draft.now))) (with_texts row.now released.now) ≡ false)
        (λ revision.
        (has_reached (Some (draft_row (name, draft.now))) (with_texts row.now released.now) ≡ true)
        × (revision ≡ row.now.revision)) }
{
    match within(row.revision, draft.revision) {
        None => None,
        Some(revision) => {
            if revision < draft.revision || released.text() == draft.text.as_slice() {
                Some(revision)
            } else {
                None
            }
        }
    }
}

// The revision in 32 bits, where it is at most this one.
fn within(revision: u64, most: u32) -> Option<u32>
    ensures { MatchOption result (most < revision) (λ r. (r ≡ revision) × (r ≤ most)) }
{
    if revision > u64::from(most) {
        return None;
    }
    Some(revision as u32)
}
