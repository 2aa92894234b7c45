//! What a keeper does to its file.
ghost use Rattle.std.specs.Prelude.{◌≡◌, ◌≢◌, ◌+◌, ◌≤◌, List, ℕ, None, true, false, length, OnOk, OnErr};
ghost use Rattle.std.specs.Option.{option_map};
ghost use Rattle.disk.specs.Disk.{WhereTold, LeavesOnly, CountsFaults};
ghost use Rattle.journal_keeper.specs.Record.{Entry, effect};
ghost use Rattle.journal_keeper.specs.Stage.{seen_by, settled, doubted, is_open, DoubtsOnly, StillStands, StandsOrGrew};
ghost use Rattle.journal_keeper.specs.Sound.{IsSound, IsMade};

use crate::Stage;
use disk::{Disk, write_through};
use pb_outside::OutError;

/// Closes a gate that is in doubt.
pub(crate) fn settle<D: Disk>(disk: &mut D, stage: &mut Stage) -> Result<(), OutError>
    requires { IsSound stage.old (D.content disk.old) (D.may_leave disk.old) }
    ensures sound { IsSound stage.new (D.content disk.new) (D.may_leave disk.new) }
    ensures told { option_map (seen_by stage.new) (D.content disk.new)
        ≡ option_map (seen_by stage.old) (D.content disk.old) }
    ensures sure { OnOk result (stage.new ≡ settled stage.old) }
    ensures kept { OnErr result (stage.new ≡ stage.old) }
    ensures doubt { OnErr result (doubted stage.new (D.content disk.new)
        ≡ doubted stage.old (D.content disk.old)) }
    ensures any_moment { WhereTold (D.content disk.old) (λ file.
        LeavesOnly D.moment D.left_since disk.old disk.new (StillStands stage.old file)) }
    ensures untouched { is_open stage.old ≡ false → disk.new ≡ disk.old }
    ensures same { settled stage.old ≡ stage.old → disk.new ≡ disk.old }
    ensures stays_open { is_open stage.new ≡ is_open stage.old }
    ensures no_memory { result ≢ Err OutError.Memory }
    ensures count { CountsFaults result (D.failures disk.old) (D.failures disk.new) }
{
    let Stage::Open { gate, in_doubt } = *stage else {
        return Ok(());
    };
    if in_doubt {
        write_through(disk, gate, &[0])?;
        *stage = Stage::Open {
            gate,
            in_doubt: false,
        };
    }
    Ok(())
}

/// Puts a record, with a closed gate behind it, behind the last gate, and then opens that gate.
pub(crate) fn append<D: Disk>(
    disk: &mut D,
    stage: &mut Stage,
    gate: u64,
    bytes: &[u8],
) -> Result<(), OutError>
    requires at { stage.old ≡ Stage.Open gate false }
    requires sound { IsSound stage.old (D.content disk.old) (D.may_leave disk.old) }
    requires made { (entry : Entry) × IsMade bytes.now entry }
    requires room { gate + length bytes.now ≤ 4294967296 }
    ensures sound { IsSound stage.new (D.content disk.new) (D.may_leave disk.new) }
    ensures done { (entry : Entry) → IsMade bytes.now entry → OnOk result (option_map (seen_by stage.new)
        (D.content disk.new) ≡ option_map (effect entry) (option_map (seen_by stage.old)
        (D.content disk.old))) }
    ensures unchanged { OnErr result (option_map (seen_by stage.new) (D.content disk.new)
        ≡ option_map (seen_by stage.old) (D.content disk.old)) }
    ensures any_moment { (entry : Entry) → IsMade bytes.now entry → WhereTold (D.content disk.old) (λ file.
        LeavesOnly D.moment D.left_since disk.old disk.new (StandsOrGrew entry stage.old file)) }
    ensures doubt { (entry : Entry) → IsMade bytes.now entry → DoubtsOnly result entry None
        (doubted stage.new (D.content disk.new)) }
    ensures stays_open { is_open stage.new ≡ true }
    ensures no_memory { result ≢ Err OutError.Memory }
    ensures count { CountsFaults result (D.failures disk.old) (D.failures disk.new) }
{
    write_through(disk, gate + 1, bytes)?;
    // From here on the gate may be open.
    *stage = Stage::Open {
        gate,
        in_doubt: true,
    };
    write_through(disk, gate, &[1])?;
    *stage = Stage::Open {
        gate: gate + bytes.len() as u64,
        in_doubt: false,
    };
    Ok(())
}
