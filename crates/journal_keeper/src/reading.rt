//! Reads the records of a journal.
ghost use Rattle.std.specs.Prelude.{◌≡◌, ◌≤◌, ℕ, length, drop, Some, None, MatchOption};
ghost use Rattle.std.specs.Option.{option_map};
ghost use Rattle.journal_keeper.specs.Record.{number_in, text_in, alone, draft_in, book_in, order_in, withdrawn_in, entry_in, record_in};
ghost use Rattle.journal_keeper.specs.Journal.{header, behind as behind_front, entries_from, is_empty_store as empty_store};
ghost use Rattle.journal_keeper.specs.Reading.{entry_of};
ghost use Rattle.journal_keeper.specs.Stage.{counts_empty};
ghost use Rattle.journal_keeper.specs.Sound.{IsLastGate, IsStageOf};

use crate::Stage;
use crate::record::Record;

// The first 8 bytes of a journal.
const HEADER: &[u8] = b"\x01PBJOURN";

fn number_at(bytes: &[u8]) -> Option<(u64, &[u8])>
    ensures { option_map (λ x. (x.0, x.1.now)) result ≡ number_in bytes.now }
{
    let [a, b, c, d, e, f, g, h, rest @ ..] = bytes else {
        return None;
    };
    let number = u64::from_be_bytes([*a, *b, *c, *d, *e, *f, *g, *h]);
    Some((number, rest))
}

fn text_at(bytes: &[u8]) -> Option<(&[u8], &[u8])>
    ensures { option_map (λ x. (x.0.now, x.1.now)) result ≡ text_in bytes.now }
{
    let [a, b, c, d, rest @ ..] = bytes else {
        return None;
    };
    let long = u32::from_be_bytes([*a, *b, *c, *d]) as usize;
    if rest.len() < long {
        return None;
    }
    Some(rest.split_at(long))
}

// The value, where nothing stands behind it.
fn whole<'a>(read: Record<'a>, rest: &[u8]) -> Option<Record<'a>>
    ensures { option_map entry_of result ≡ alone (entry_of read.entry) rest.now }
{
    if rest.is_empty() { Some(read) } else { None }
}

#[tactic(auto, unfolding(crate::specs::Record::draft_in))]
fn draft_at(payload: &[u8]) -> Option<Record<'_>>
    ensures { option_map entry_of result ≡ draft_in payload.now }
{
    let (name, rest) = text_at(payload)?;
    let (owner, rest) = text_at(rest)?;
    let (revision, rest) = number_at(rest)?;
    let (text, rest) = text_at(rest)?;
    let read = Record::Draft {
        name,
        owner,
        revision,
        text,
    };
    whole(read, rest)
}

#[tactic(auto, unfolding(crate::specs::Record::book_in))]
fn book_at(payload: &[u8]) -> Option<Record<'_>>
    ensures { option_map entry_of result ≡ book_in payload.now }
{
    let (number, rest) = number_at(payload)?;
    let (draft, rest) = text_at(rest)?;
    let (revision, rest) = number_at(rest)?;
    let (text, rest) = text_at(rest)?;
    let (cert, rest) = text_at(rest)?;
    let read = Record::Book {
        number,
        draft,
        revision,
        text,
        cert,
    };
    whole(read, rest)
}

#[tactic(auto, unfolding(crate::specs::Record::order_in))]
fn order_at(payload: &[u8]) -> Option<Record<'_>>
    ensures { option_map entry_of result ≡ order_in payload.now }
{
    let (caller, rest) = text_at(payload)?;
    let (number, rest) = number_at(rest)?;
    let (book, rest) = number_at(rest)?;
    let (day, rest) = number_at(rest)?;
    let (codes, rest) = text_at(rest)?;
    let read = Record::Order {
        caller,
        number,
        book,
        day,
        codes,
    };
    whole(read, rest)
}

#[tactic(auto, unfolding(crate::specs::Record::withdrawn_in))]
fn withdrawn_at(payload: &[u8]) -> Option<Record<'_>>
    ensures { option_map entry_of result ≡ withdrawn_in payload.now }
{
    let (number, rest) = number_at(payload)?;
    whole(Record::Withdrawn(number), rest)
}

#[tactic(auto, unfolding(crate::specs::Record::entry_in))]
fn entry_at(kind: u8, payload: &[u8]) -> Option<Record<'_>>
    ensures { option_map entry_of result ≡ entry_in kind payload.now }
{
    match kind {
        1 => draft_at(payload),
        2 => book_at(payload),
        3 => order_at(payload),
        4 => withdrawn_at(payload),
        _ => None,
    }
}

/// The record at the front of the bytes, and what stands behind it.
#[tactic(auto, unfolding(crate::specs::Record::record_in))]
pub(crate) fn record_at(bytes: &[u8]) -> Option<(Record<'_>, &[u8])>
    ensures { MatchOption result (record_in bytes.now ≡ None)
        (λ x. (n : ℕ) × (record_in bytes.now ≡ Some (entry_of x.0, n)) × (x.1.now ≡ drop n bytes.now)) }
{
    let (kind, rest) = bytes.split_first()?;
    let (payload, rest) = text_at(rest)?;
    let read = entry_at(*kind, payload)?;
    Some((read, rest))
}

// What stands behind these bytes, where the file begins with them.
fn behind<'a>(front: &[u8], file: &'a [u8]) -> Option<&'a [u8]>
    ensures { option_map (λ rest. rest.now) result ≡ behind_front front.now file.now }
{
    let mut rest = file;
    for byte in front {
        let (first, others) = rest.split_first()?;
        if first != byte {
            return None;
        }
        rest = others;
    }
    Some(rest)
}

/// What stands behind the header of a journal.
pub(crate) fn body_of(file: &[u8]) -> Option<&[u8]>
    ensures { option_map (λ rest. rest.now) result ≡ behind_front header file.now }
{
    behind(HEADER, file)
}

// The place of the last gate in what begins with a gate, where that is one that ends a journal.
fn last_gate(body: &[u8]) -> Option<usize>
    ensures { MatchOption result (entries_from body.now ≡ None) (IsLastGate body.now) }
{
    let mut rest = body;
    while let Some((1, line)) = rest.split_first() {
        let (_, next) = record_at(line)?;
        rest = next;
    }
    if rest.is_empty() {
        return None;
    }
    Some(body.len() - rest.len())
}

/// Whether nothing was ever kept in a file.
pub(crate) fn is_empty_store(file: &[u8]) -> bool
    ensures { result ≡ empty_store file.now }
{
    file.len() < 9 || (file.len() == 9 && file[0] != 1)
}

/// Whether a file counts as an empty store.
pub(crate) fn counts_as_empty(stage: Stage, file: &[u8]) -> bool
    ensures { result ≡ counts_empty stage file.now }
{
    match stage {
        Stage::Shut => is_empty_store(file),
        Stage::Late => true,
        Stage::Open { .. } => false,
    }
}

/// How far one has come with a file that was found: it is open where it is a journal.
pub(crate) fn stage_of(file: &[u8]) -> Stage
    ensures { IsStageOf file.now result }
{
    let Some(body) = body_of(file) else {
        return Stage::Shut;
    };
    match last_gate(body) {
        Some(gate) => Stage::Open {
            gate: (HEADER.len() + gate) as u64,
            in_doubt: false,
        },
        None => Stage::Shut,
    }
}
