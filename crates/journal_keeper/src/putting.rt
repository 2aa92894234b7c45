//! Puts a row.
ghost use Rattle.std.specs.Prelude.{◌≡◌, ◌+◌, ◌≤◌, not, nat_lt, true, false, None, Err, OnOk, OnErr};
ghost use Rattle.pb_outside.specs.Faults.{Rose, raised};
ghost use Rattle.std.specs.Option.{option_map};
ghost use Rattle.keeper.specs.Causes.{HasCause};
ghost use Rattle.disk.specs.Disk.{WhereTold, LeavesOnly};
ghost use Rattle.journal_keeper.specs.Record.{effect};
ghost use Rattle.journal_keeper.specs.Stage.{seen_by, doubted, is_open, is_refused, DoubtsOnly, StandsOrGrew};
ghost use Rattle.journal_keeper.specs.Sound.{IsSound};
ghost use Rattle.journal_keeper.specs.Counts.{count_of, Refuses};

use crate::Stage;
use crate::journal::{append, settle};
use crate::recorded::{Recorded, line_of};
use disk::Disk;
use pb_outside::{FaultCount, OutError};
use std::alloc::Global;

// The longest file, in bytes.
const LONGEST: u64 = 4294967296;

// Whether the file is not too long with a record of so many bytes behind the gate, and a gate behind that.
fn has_room(gate: u64, payload_len: u64) -> bool
    ensures { result ≡ not (nat_lt 4294967296 (gate + 7 + payload_len)) }
{
    gate <= LONGEST && payload_len <= LONGEST && gate + 7 + payload_len <= LONGEST
}

// A put that is refused.
fn refuse(refusals: &mut FaultCount) -> Result<(), OutError>
    ensures failed { result ≡ Err OutError.Failed }
    ensures counted { refusals.new ≡ raised refusals.old }
    ensures rose { Rose refusals.old refusals.new }
    ensures more { refusals.old ≤ refusals.new }
{
    refusals.raise();
    Err(OutError::Failed)
}

// Sets the row of its key, where this is the last gate.
fn put_behind<D: Disk, R: Recorded>(
    alloc: Global,
    disk: &mut D,
    stage: &mut Stage,
    gate: u64,
    refusals: &mut FaultCount,
    row: &R,
) -> Result<(), OutError>
    requires at { stage.old ≡ Stage.Open gate false }
    requires sound { IsSound stage.old (D.content disk.old) (D.may_leave disk.old) }
    ensures sound { IsSound stage.new (D.content disk.new) (D.may_leave disk.new) }
    ensures done { OnOk result (option_map (seen_by stage.new) (D.content disk.new)
        ≡ option_map (effect (R.entry row.now)) (option_map (seen_by stage.old) (D.content disk.old))) }
    ensures unchanged { OnErr result (option_map (seen_by stage.new) (D.content disk.new)
        ≡ option_map (seen_by stage.old) (D.content disk.old)) }
    ensures any_moment { WhereTold (D.content disk.old) (λ file.
        LeavesOnly D.moment D.left_since disk.old disk.new (StandsOrGrew (R.entry row.now) stage.old file)) }
    ensures doubt { DoubtsOnly result (R.entry row.now) None (doubted stage.new (D.content disk.new)) }
    ensures stays_open { is_open stage.new ≡ true }
    ensures refuses { Refuses result (is_refused stage.old (R.entry row.now))
        (D.failures disk.old) (D.failures disk.new) refusals.old refusals.new }
    ensures count { HasCause result (count_of (D.failures disk.old) refusals.old)
        (count_of (D.failures disk.new) refusals.new) }
{
    let len = row.payload_len();
    if !has_room(gate, len) {
        return refuse(refusals);
    }
    let line = line_of(alloc, row, len as u32)?;
    append(disk, stage, gate, &line)
}

/// Sets the row of its key.
pub(crate) fn put<D: Disk, R: Recorded>(
    alloc: Global,
    disk: &mut D,
    stage: &mut Stage,
    refusals: &mut FaultCount,
    row: &R,
) -> Result<(), OutError>
    requires { IsSound stage.old (D.content disk.old) (D.may_leave disk.old) }
    ensures sound { IsSound stage.new (D.content disk.new) (D.may_leave disk.new) }
    ensures done { OnOk result (option_map (seen_by stage.new) (D.content disk.new)
        ≡ option_map (effect (R.entry row.now)) (option_map (seen_by stage.old) (D.content disk.old))) }
    ensures unchanged { OnErr result (option_map (seen_by stage.new) (D.content disk.new)
        ≡ option_map (seen_by stage.old) (D.content disk.old)) }
    ensures any_moment { WhereTold (D.content disk.old) (λ file.
        LeavesOnly D.moment D.left_since disk.old disk.new (StandsOrGrew (R.entry row.now) stage.old file)) }
    ensures doubt { DoubtsOnly result (R.entry row.now) (doubted stage.old (D.content disk.old))
        (doubted stage.new (D.content disk.new)) }
    ensures stays_open { is_open stage.new ≡ is_open stage.old }
    ensures untouched { is_open stage.old ≡ false → disk.new ≡ disk.old }
    ensures refuses { Refuses result (is_refused stage.old (R.entry row.now))
        (D.failures disk.old) (D.failures disk.new) refusals.old refusals.new }
    ensures count { HasCause result (count_of (D.failures disk.old) refusals.old)
        (count_of (D.failures disk.new) refusals.new) }
{
    // The repair comes first: a put that is refused leaves no gate in doubt either.
    settle(disk, stage)?;
    let Stage::Open { gate, .. } = *stage else {
        return refuse(refusals);
    };
    put_behind(alloc, disk, stage, gate, refusals, row)
}
