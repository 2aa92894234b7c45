//! The lines that tell what changes.
ghost use Rattle.std.specs.Prelude.{◌≡◌, ◌++◌, [], IfOk, OnOk};
ghost use Rattle.std.specs.List.{flat_map};
ghost use Rattle.book_changes.specs.ChangesText.{added_line, after_text, block_text, blocks_text, cause_text, changes_text, common_line, days_like, days_line, differ_line, end_line, loss_line, pair_text, run_lines, touches, use_text, with_text};
ghost use Rattle.book_changes.specs.Joining.{closed_behind, closed_by, pending_after, pending_behind};

use crate::alike::{is_told, same_lines};
use crate::count::told_in;
use crate::run::{Common, DifferNote, RunNotes};
use book_model::{Book, Slice};
use chosen_parts::PartUse;
use lost_cars::{Cause, LossNote};
use pb_base::{Body, CodeName, Day, Memory, Text, put_names, put_number};
use std::alloc::Global;

/// For each run `days FIRST LAST` and its lines: `no common car`, `lost ENTRY with CODE ..` or `lost code CODE with CODE ..`, `won ..`,
/// `added`, `differs POSITION with CODE .. has PART xQ next PART xQ`, and `undecided .. after N` in place of a line that was left. Runs
/// with the same lines but for what stands from ` with` on are told once, with the days of all. At the end `end` and how many lines
/// are `lost`, `won`, `added` or `differs`.
pub fn changes_text(
    alloc: Global,
    first: &Book,
    second: &Book,
    budget: u32,
    runs: &[RunNotes],
) -> Result<Body, Memory>
    ensures { IfOk result (λ text. text ≡ changes_text first.now second.now budget runs.now) }
{
    let mut text = Text::new(alloc);
    put_blocks(&mut text, first, second, budget, runs)?;
    put_end(&mut text, runs)?;
    Ok(text.into_body())
}

fn put_end(text: &mut Text, runs: &[RunNotes]) -> Result<(), Memory>
    ensures { OnOk result (text.new ≡ text.old ++ end_line runs.now) }
{
    text.put(b"end")?;
    put_number(text, told_in(runs)?)?;
    text.put(b"\n")
}

fn put_blocks(
    text: &mut Text,
    first: &Book,
    second: &Book,
    budget: u32,
    runs: &[RunNotes],
) -> Result<(), Memory>
    ensures { OnOk result (text.new ≡ text.old ++ blocks_text first.now second.now budget [] runs.now) }
{
    for at in 0..runs.len() {
        put_block(
            text,
            first,
            second,
            budget,
            &runs[..at],
            &runs[at],
            &runs[at + 1..],
        )?;
    }
    Ok(())
}

// The days and the lines of a run, unless they stand at one before it.
fn put_block(
    text: &mut Text,
    first: &Book,
    second: &Book,
    budget: u32,
    before: &[RunNotes],
    run: &RunNotes,
    later: &[RunNotes],
) -> Result<(), Memory>
    ensures { OnOk result (text.new
        ≡ text.old ++ block_text first.now second.now budget before.now run.now later.now) }
{
    if is_told(run, before) {
        return Ok(());
    }
    put_days(text, run, later)?;
    put_lines(text, first, second, budget, run)
}

fn put_days(text: &mut Text, run: &RunNotes, later: &[RunNotes]) -> Result<(), Memory>
    ensures { OnOk result (text.new ≡ text.old ++ days_line (days_like run.now later.now)) }
{
    text.put(b"days")?;
    put_pairs(text, run, later)?;
    text.put(b"\n")
}

// The days of a run and of those behind it of which the same is told.
fn put_pairs(text: &mut Text, run: &RunNotes, later: &[RunNotes]) -> Result<(), Memory>
    ensures { OnOk result (text.new ≡ text.old ++ flat_map pair_text (days_like run.now later.now)) }
{
    let mut pending = run.days;
    for other in later {
        let next = put_closed(text, run, pending, other)?;
        pending = next;
    }
    put_pair(text, pending)
}

// The days that another run closes, and those that are pending from then on.
fn put_closed(
    text: &mut Text,
    run: &RunNotes,
    pending: Slice,
    other: &RunNotes,
) -> Result<Slice, Memory>
    ensures text { OnOk result (text.new ≡ text.old ++ closed_by run.now pending other.now) }
    ensures pending { IfOk result (λ next. next ≡ pending_after run.now pending other.now) }
{
    if !same_lines(run, other) {
        return Ok(pending);
    }
    put_behind(text, pending, other.days)
}

fn put_behind(text: &mut Text, pending: Slice, days: Slice) -> Result<Slice, Memory>
    ensures text { OnOk result (text.new ≡ text.old ++ closed_behind pending days) }
    ensures pending { IfOk result (λ next. next ≡ pending_behind pending days) }
{
    if touches(pending.last, days.first) {
        return Ok(Slice {
            first: pending.first,
            last: days.last,
        });
    }
    put_pair(text, pending)?;
    Ok(days)
}

// Whether a day is the one after another.
fn touches(last: Day, first: Day) -> bool
    ensures { result ≡ touches last first }
{
    last < first && first - last == 1
}

fn put_pair(text: &mut Text, days: Slice) -> Result<(), Memory>
    ensures { OnOk result (text.new ≡ text.old ++ pair_text days) }
{
    put_number(text, u64::from(days.first))?;
    put_number(text, u64::from(days.last))
}

fn put_lines(
    text: &mut Text,
    first: &Book,
    second: &Book,
    budget: u32,
    run: &RunNotes,
) -> Result<(), Memory>
    ensures { OnOk result (text.new ≡ text.old ++ run_lines first.now second.now budget run.now) }
{
    put_common(text, budget, &run.common)?;
    put_losses(text, b"lost ", first, budget, &run.lost)?;
    put_losses(text, b"won ", second, budget, &run.won)?;
    put_added(text, run.added)?;
    put_differs(text, budget, &run.differs)
}

fn put_common(text: &mut Text, budget: u32, common: &Common) -> Result<(), Memory>
    ensures { OnOk result (text.new ≡ text.old ++ common_line budget common.now) }
{
    match common {
        Common::Shared => Ok(()),
        Common::Nowhere => text.put(b"no common car\n"),
        Common::Undecided => {
            text.put(b"undecided common")?;
            put_after(text, budget)?;
            text.put(b"\n")
        }
    }
}

fn put_added(text: &mut Text, added: bool) -> Result<(), Memory>
    ensures { OnOk result (text.new ≡ text.old ++ added_line added) }
{
    if added { text.put(b"added\n") } else { Ok(()) }
}

fn put_losses(
    text: &mut Text,
    word: &[u8],
    own: &Book,
    budget: u32,
    notes: &[LossNote],
) -> Result<(), Memory>
    ensures { OnOk result (text.new ≡ text.old ++ flat_map (loss_line word.now own.now.codes budget) notes.now) }
{
    for note in notes {
        put_loss(text, word, own, budget, note)?;
    }
    Ok(())
}

fn put_loss(
    text: &mut Text,
    word: &[u8],
    own: &Book,
    budget: u32,
    note: &LossNote,
) -> Result<(), Memory>
    ensures { OnOk result (text.new ≡ text.old ++ loss_line word.now own.now.codes budget note.now) }
{
    match note {
        LossNote::Lost { cause, car } => {
            text.put(word)?;
            put_cause(text, cause)?;
            text.put(b" with")?;
            put_names(text, own.codes(), car)?;
            text.put(b"\n")
        }
        LossNote::Undecided { cause } => {
            text.put(b"undecided ")?;
            text.put(word)?;
            put_cause(text, cause)?;
            put_after(text, budget)?;
            text.put(b"\n")
        }
    }
}

fn put_cause(text: &mut Text, cause: &Cause) -> Result<(), Memory>
    ensures { OnOk result (text.new ≡ text.old ++ cause_text cause.now) }
{
    match cause {
        Cause::Entry(id) => text.put(id.bytes()),
        Cause::Code(name) => {
            text.put(b"code ")?;
            text.put(name.bytes())
        }
    }
}

fn put_differs(text: &mut Text, budget: u32, notes: &[DifferNote]) -> Result<(), Memory>
    ensures { OnOk result (text.new ≡ text.old ++ flat_map (differ_line budget) notes.now) }
{
    for note in notes {
        put_differ(text, budget, note)?;
    }
    Ok(())
}

fn put_differ(text: &mut Text, budget: u32, note: &DifferNote) -> Result<(), Memory>
    ensures { OnOk result (text.new ≡ text.old ++ differ_line budget note.now) }
{
    match note {
        DifferNote::Differs {
            position,
            set,
            has,
            next,
        } => {
            text.put(b"differs ")?;
            text.put(position.bytes())?;
            put_with(text, set.as_slice())?;
            text.put(b" has")?;
            put_use(text, has)?;
            text.put(b" next")?;
            put_use(text, next)?;
            text.put(b"\n")
        }
        DifferNote::Undecided { position } => {
            text.put(b"undecided differs ")?;
            text.put(position.bytes())?;
            put_after(text, budget)?;
            text.put(b"\n")
        }
    }
}

fn put_use(text: &mut Text, part: &Option<PartUse>) -> Result<(), Memory>
    ensures { OnOk result (text.new ≡ text.old ++ use_text part.now) }
{
    match part {
        None => text.put(b" -"),
        Some(part) => {
            text.put(b" ")?;
            text.put(part.part.bytes())?;
            text.put(b" x")?;
            text.put_number(u64::from(part.quantity))
        }
    }
}

fn put_with(text: &mut Text, names: &[CodeName]) -> Result<(), Memory>
    ensures { OnOk result (text.new ≡ text.old ++ with_text names.now) }
{
    text.put(b" with")?;
    for name in names {
        text.put(b" ")?;
        text.put(name.bytes())?;
    }
    Ok(())
}

fn put_after(text: &mut Text, budget: u32) -> Result<(), Memory>
    ensures { OnOk result (text.new ≡ text.old ++ after_text budget) }
{
    text.put(b" after")?;
    put_number(text, u64::from(budget))
}
