//! What the notes come to.
ghost use Rattle.std.specs.Prelude.{◌≡◌, ◌+◌, [], IfOk};
ghost use Rattle.std.specs.List.{list_any};
ghost use Rattle.book_changes.specs.ChangesText.{is_changed, is_undecided, is_loss, is_left_loss, is_difference, is_left_difference, is_nowhere, is_left_common, losses_in, differences_in, findings_in, one_if, told_once, told_behind};

use crate::alike::is_told;
use crate::run::{Common, DifferNote, RunNotes};
use lost_cars::LossNote;
use pb_base::Memory;

/// Whether something changes.
pub fn any_change(runs: &[RunNotes]) -> bool
    ensures { result ≡ list_any is_changed runs.now }
{
    runs.iter().any(|run| is_changed(run))
}

/// Whether something was left undecided.
pub fn any_undecided(runs: &[RunNotes]) -> bool
    ensures { result ≡ list_any is_undecided runs.now }
{
    runs.iter().any(|run| is_undecided(run))
}

fn is_changed(run: &RunNotes) -> bool
    ensures { result ≡ is_changed run.now }
{
    is_nowhere(&run.common)
        || any_loss(&run.lost)
        || any_loss(&run.won)
        || run.added
        || any_difference(&run.differs)
}

fn is_undecided(run: &RunNotes) -> bool
    ensures { result ≡ is_undecided run.now }
{
    is_left_common(&run.common)
        || any_left_loss(&run.lost)
        || any_left_loss(&run.won)
        || any_left_difference(&run.differs)
}

fn any_loss(notes: &[LossNote]) -> bool
    ensures { result ≡ list_any is_loss notes.now }
{
    notes.iter().any(|note| is_loss(note))
}

fn any_left_loss(notes: &[LossNote]) -> bool
    ensures { result ≡ list_any is_left_loss notes.now }
{
    notes.iter().any(|note| is_left_loss(note))
}

fn any_difference(notes: &[DifferNote]) -> bool
    ensures { result ≡ list_any is_difference notes.now }
{
    notes.iter().any(|note| is_difference(note))
}

fn any_left_difference(notes: &[DifferNote]) -> bool
    ensures { result ≡ list_any is_left_difference notes.now }
{
    notes.iter().any(|note| is_left_difference(note))
}

fn is_nowhere(common: &Common) -> bool
    ensures { result ≡ is_nowhere common.now }
{
    match common {
        Common::Nowhere => true,
        Common::Shared | Common::Undecided => false,
    }
}

fn is_left_common(common: &Common) -> bool
    ensures { result ≡ is_left_common common.now }
{
    match common {
        Common::Undecided => true,
        Common::Shared | Common::Nowhere => false,
    }
}

fn is_loss(note: &LossNote) -> bool
    ensures { result ≡ is_loss note.now }
{
    match note {
        LossNote::Lost { .. } => true,
        LossNote::Undecided { .. } => false,
    }
}

fn is_left_loss(note: &LossNote) -> bool
    ensures { result ≡ is_left_loss note.now }
{
    match note {
        LossNote::Lost { .. } => false,
        LossNote::Undecided { .. } => true,
    }
}

fn is_difference(note: &DifferNote) -> bool
    ensures { result ≡ is_difference note.now }
{
    match note {
        DifferNote::Differs { .. } => true,
        DifferNote::Undecided { .. } => false,
    }
}

fn is_left_difference(note: &DifferNote) -> bool
    ensures { result ≡ is_left_difference note.now }
{
    match note {
        DifferNote::Differs { .. } => false,
        DifferNote::Undecided { .. } => true,
    }
}

/// How many of the lines that are told are a car that is lost or won, other added codes, or a position that differs. Each of them
/// is in memory, so that the sums fit.
pub(crate) fn told_in(runs: &[RunNotes]) -> Result<u64, Memory>
    ensures { IfOk result (λ count. count ≡ told_behind [] runs.now) }
{
    let mut count = 0;
    for at in 0..runs.len() {
        let own = told_once(&runs[..at], &runs[at])?;
        count = plus(count, own)?;
    }
    Ok(count)
}

// The same of one run, of which nothing is told where the same is told of one before.
fn told_once(before: &[RunNotes], run: &RunNotes) -> Result<u64, Memory>
    ensures { IfOk result (λ count. count ≡ told_once before.now run.now) }
{
    if is_told(run, before) {
        return Ok(0);
    }
    findings_in(run)
}

fn findings_in(run: &RunNotes) -> Result<u64, Memory>
    ensures { IfOk result (λ count. count ≡ findings_in run.now) }
{
    let cars = plus(losses_in(&run.lost) as u64, losses_in(&run.won) as u64)?;
    let more = plus(cars, one_if(run.added))?;
    plus(more, differences_in(&run.differs) as u64)
}

fn one_if(added: bool) -> u64
    ensures { result ≡ one_if added }
{
    if added { 1 } else { 0 }
}

fn plus(a: u64, b: u64) -> Result<u64, Memory>
    ensures { IfOk result (λ n. n ≡ a + b) }
{
    a.checked_add(b).ok_or(Memory)
}

fn losses_in(notes: &[LossNote]) -> usize
    ensures { result ≡ losses_in notes.now }
{
    let mut count = 0;
    for note in notes {
        if is_loss(note) {
            count += 1;
        }
    }
    count
}

fn differences_in(notes: &[DifferNote]) -> usize
    ensures { result ≡ differences_in notes.now }
{
    let mut count = 0;
    for note in notes {
        if is_difference(note) {
            count += 1;
        }
    }
    count
}
