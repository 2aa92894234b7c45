//! Runs of days of which the same is told, but for the cars.
ghost use Rattle.std.specs.Prelude.{◌≡◌};
ghost use Rattle.firing_sequence.specs.Sequence.{zip_all};
ghost use Rattle.book_changes.specs.Alike.{same_cause, same_loss, same_differ, same_common, same_flag, same_lines, told_before};

use crate::run::{Common, DifferNote, RunNotes};
use lost_cars::{Cause, LossNote};

/// Whether the same is told of one of the runs before.
pub(crate) fn is_told(run: &RunNotes, before: &[RunNotes]) -> bool
    ensures { result ≡ told_before run.now before.now }
{
    before.iter().any(|other| same_lines(run, other))
}

/// Whether the same is told of two runs, whichever cars are shown.
pub(crate) fn same_lines(run: &RunNotes, other: &RunNotes) -> bool
    ensures { result ≡ same_lines run.now other.now }
{
    same_common(&run.common, &other.common)
        && same_losses(&run.lost, &other.lost)
        && same_losses(&run.won, &other.won)
        && same_flag(run.added, other.added)
        && same_differs(&run.differs, &other.differs)
}

fn same_common(own: &Common, other: &Common) -> bool
    ensures { result ≡ same_common own.now other.now }
{
    match (own, other) {
        (Common::Shared, Common::Shared) => true,
        (Common::Nowhere, Common::Nowhere) => true,
        (Common::Undecided, Common::Undecided) => true,
        _ => false,
    }
}

fn same_flag(own: bool, other: bool) -> bool
    ensures { result ≡ same_flag own other }
{
    match (own, other) {
        (true, true) => true,
        (false, false) => true,
        _ => false,
    }
}

#[tactic(auto, using(firing_sequence::proofs::SequenceLaws::zip_failed, firing_sequence::proofs::SequenceLaws::zip_lengths))]
fn same_losses(own: &[LossNote], other: &[LossNote]) -> bool
    ensures { result ≡ zip_all same_loss own.now other.now }
{
    if own.len() != other.len() {
        return false;
    }
    for at in 0..own.len() {
        if !same_loss(&own[at], &other[at]) {
            return false;
        }
    }
    true
}

fn same_loss(own: &LossNote, other: &LossNote) -> bool
    ensures { result ≡ same_loss own.now other.now }
{
    match (own, other) {
        (LossNote::Lost { cause, .. }, LossNote::Lost { cause: read, .. }) => same_cause(
            cause, read,
        ),
        (LossNote::Undecided { cause }, LossNote::Undecided { cause: read }) => same_cause(
            cause, read,
        ),
        _ => false,
    }
}

fn same_cause(own: &Cause, other: &Cause) -> bool
    ensures { result ≡ same_cause own.now other.now }
{
    match (own, other) {
        (Cause::Entry(id), Cause::Entry(read)) => *id == *read,
        (Cause::Code(name), Cause::Code(read)) => *name == *read,
        _ => false,
    }
}

#[tactic(auto, using(firing_sequence::proofs::SequenceLaws::zip_failed, firing_sequence::proofs::SequenceLaws::zip_lengths))]
fn same_differs(own: &[DifferNote], other: &[DifferNote]) -> bool
    ensures { result ≡ zip_all same_differ own.now other.now }
{
    if own.len() != other.len() {
        return false;
    }
    for at in 0..own.len() {
        if !same_differ(&own[at], &other[at]) {
            return false;
        }
    }
    true
}

fn same_differ(own: &DifferNote, other: &DifferNote) -> bool
    ensures { result ≡ same_differ own.now other.now }
{
    match (own, other) {
        (DifferNote::Differs { position, .. }, DifferNote::Differs { position: read, .. }) =>
            *position == *read,
        (DifferNote::Undecided { position }, DifferNote::Undecided { position: read }) => *position
            == *read,
        _ => false,
    }
}
