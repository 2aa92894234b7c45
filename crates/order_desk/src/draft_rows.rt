//! Drafts from their rows.
ghost use Rattle.std.specs.Prelude.{◌≡◌, ◌+◌, ◌≤◌, [], IfOk, MatchOption, OnOk, None, Some, map, length, true, false};
ghost use Rattle.pb_base.specs.Answers.{IfRefused};
ghost use Rattle.order_desk.specs.RightRows.{first_wrong, is_draft_row};
ghost use Rattle.order_desk.specs.Rows.{draft_row};
ghost use Rattle.order_desk.specs.Tables.{by_name};
ghost use Rattle.std.specs.BTreeMap.{insert_entry};

use crate::draft::NewDraft;
use crate::rising::comes_last;
use crate::writing::shared_draft;
use crate::{Draft, MOST_DRAFTS, MOST_REVISION};
use keeper::DraftRow;
use pb_base::limits::MOST_TEXT_BYTES;
use pb_base::{Fail, Id, Memory};
use std::alloc::Global;
use std::collections::{BTreeMap, VecDeque};

// A draft and its name.
#[derive(Drop)]
struct NamedDraft {
    name: Id,
    draft: NewDraft,
}

/// The drafts of the rows, or the number, from 1, of the first row that isn't right.
pub(crate) fn drafts_of(
    alloc: Global,
    rows: Vec<DraftRow>,
) -> Result<BTreeMap<Id, Draft>, Fail<u32>>
    ensures right { IfOk result (λ drafts. first_wrong is_draft_row [] rows.items ≡ None) }
    ensures rows { IfOk result (λ drafts. map draft_row drafts.entries ≡ rows.items) }
    ensures wrong { IfRefused result (λ place. first_wrong is_draft_row [] rows.items ≡ Some place) }
{
    let mut drafts = BTreeMap::new(alloc);
    let mut rest = VecDeque::from_vec(rows);
    while let Some(row) = rest.pop_front() {
        match draft_from(&drafts, row) {
            Some(read) => put_read(alloc, &mut drafts, read)?,
            None => return Err(Fail::Refused(drafts.len() as u32 + 1)),
        }
    }
    Ok(drafts)
}

// Puts a draft that was read among the others.
fn put_read(alloc: Global, drafts: &mut BTreeMap<Id, Draft>, read: NamedDraft) -> Result<(), Memory>
    ensures { OnOk result
        (drafts.new.entries ≡ insert_entry by_name drafts.old.entries read.name read.draft) }
{
    let NamedDraft { name, draft } = read;
    let draft = shared_draft(alloc, &name, draft)?;
    drafts.insert(name, draft)?;
    Ok(())
}

// The draft of the row behind these drafts, or None where the row isn't right.
fn draft_from(drafts: &BTreeMap<Id, Draft>, row: DraftRow) -> Option<NamedDraft>
    ensures { MatchOption result (is_draft_row (map draft_row drafts.now.entries) row ≡ false)
        (λ read. (is_draft_row (map draft_row drafts.now.entries) row ≡ true)
        × (draft_row (read.name, read.draft) ≡ row)) }
{
    let name = Id::of(row.name.as_slice())?;
    let owner = Id::of(row.owner.as_slice())?;
    if !comes_last(drafts, &name) {
        return None;
    }
    if row.revision < 1 || row.revision > u64::from(MOST_REVISION) {
        return None;
    }
    if row.text.as_slice().len() > MOST_TEXT_BYTES || drafts.len() >= MOST_DRAFTS {
        return None;
    }
    Some(NamedDraft {
        name,
        draft: NewDraft {
            owner,
            revision: row.revision as u32,
            text: row.text,
        },
    })
}
