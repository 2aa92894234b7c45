//! Begins a journal.
ghost use Rattle.std.specs.Prelude.{◌≡◌, ◌≢◌, true, false, List, ℕ, None, IfOk, IfSome, OnOk, OnErr};
ghost use Rattle.std.specs.Option.{option_map};
ghost use Rattle.keeper.specs.Rows.{bare, begun};
ghost use Rattle.disk.specs.Disk.{WhereTold, Becomes, Only, LeavesOnly, CountsFaults};
ghost use Rattle.journal_keeper.specs.Journal.{unopened};
ghost use Rattle.journal_keeper.specs.Stage.{seen_by, settled, doubted, counts_empty, IsBlank, KeepsBlank, IsBegun, IsFound};
ghost use Rattle.journal_keeper.specs.Sound.{IsSound};
ghost use Rattle.journal_keeper.specs.Held.{Holds};

use crate::Stage;
use crate::reading::{counts_as_empty, is_empty_store, stage_of};
use disk::{Disk, cut_through, write_through};
use pb_outside::OutError;
use std::alloc::Global;

// What stands behind the first byte: the rest of the header, and a closed gate.
const BEHIND_FIRST: &[u8] = b"PBJOURN\0";

// Writes a journal without records but for its first byte.
fn clear<D: Disk>(disk: &mut D) -> Result<(), OutError>
    ensures done { OnOk result (D.content disk.new ≡ option_map (λ _. unopened) (D.content disk.old)) }
    ensures durable { OnOk result (Only unopened (D.may_leave disk.new)) }
    ensures kept { OnErr result (Becomes KeepsBlank (D.content disk.old) (D.content disk.new)) }
    ensures any_moment { WhereTold (D.content disk.old) (λ file. IsBlank file → Only file
        (D.may_leave disk.old)
        → LeavesOnly D.moment D.left_since disk.old disk.new IsBlank) }
    ensures no_memory { result ≢ Err OutError.Memory }
    ensures count { CountsFaults result (D.failures disk.old) (D.failures disk.new) }
{
    cut_through(disk, 0)?;
    write_through(disk, 0, &[0])?;
    write_through(disk, 1, BEHIND_FIRST)?;
    Ok(())
}

// Makes a journal without records of what counts as an empty store.
fn format<D: Disk>(disk: &mut D, stage: &mut Stage) -> Result<(), OutError>
    requires empty { WhereTold (D.content disk.old) (λ file. (counts_empty stage.old file
        ≡ true) × IsBlank file) }
    requires durable { WhereTold (D.content disk.old) (λ file. Only file (D.may_leave disk.old)) }
    ensures sound { IsSound stage.new (D.content disk.new) (D.may_leave disk.new) }
    ensures done { OnOk result (option_map (seen_by stage.new) (D.content disk.new)
        ≡ option_map (λ _. bare 2) (D.content disk.old)) }
    ensures unchanged { OnErr result (option_map (seen_by stage.new) (D.content disk.new)
        ≡ option_map (λ _. bare 0) (D.content disk.old)) }
    ensures found { OnOk result (stage.new ≡ Stage.Open 8 false) }
    ensures doubt { doubted stage.new (D.content disk.new) ≡ None }
    ensures any_moment { WhereTold (D.content disk.old) (λ _.
        LeavesOnly D.moment D.left_since disk.old disk.new IsBlank) }
    ensures no_memory { result ≢ Err OutError.Memory }
    ensures count { CountsFaults result (D.failures disk.old) (D.failures disk.new) }
{
    clear(disk)?;
    // From here on the journal may be there.
    *stage = Stage::Late;
    write_through(disk, 0, &[1])?;
    *stage = Stage::Open {
        gate: 8,
        in_doubt: false,
    };
    Ok(())
}

// Begins with a file that was read, all of it on the disk.
fn begin_with<D: Disk>(disk: &mut D, stage: &mut Stage, file: &[u8]) -> Result<(), OutError>
    requires sound { IsSound stage.old (D.content disk.old) (D.may_leave disk.old) }
    requires read { WhereTold (D.content disk.old) (λ told. file.now ≡ told) }
    requires durable { WhereTold (D.content disk.old) (λ file. Only file (D.may_leave disk.old)) }
    ensures sound { IsSound stage.new (D.content disk.new) (D.may_leave disk.new) }
    ensures done { OnOk result (option_map (seen_by stage.new) (D.content disk.new)
        ≡ option_map begun (option_map (seen_by stage.old) (D.content disk.old))) }
    ensures unchanged { OnErr result (option_map (seen_by stage.new) (D.content disk.new)
        ≡ option_map (seen_by stage.old) (D.content disk.old)) }
    ensures found { OnOk result (WhereTold (D.content disk.new) (IsFound stage.new)) }
    ensures same_disk { counts_empty stage.old file.now ≡ false → disk.new ≡ disk.old }
    ensures sure { stage.old ≡ Stage.Shut → counts_empty stage.old file.now ≡ false → settled stage.new ≡ stage.new }
    ensures doubt { doubted stage.new (D.content disk.new) ≡ doubted stage.old (D.content disk.old) }
    ensures any_moment { WhereTold (D.content disk.old) (λ file.
        LeavesOnly D.moment D.left_since disk.old disk.new (IsBegun stage.old file (D.may_leave disk.old))) }
    ensures no_memory { result ≢ Err OutError.Memory }
    ensures count { CountsFaults result (D.failures disk.old) (D.failures disk.new) }
{
    if counts_as_empty(*stage, file) {
        return format(disk, stage);
    }
    let Stage::Shut = *stage else {
        return Ok(());
    };
    *stage = stage_of(file);
    Ok(())
}

// The file, all of it on the disk.
fn read_synced<D: Disk>(alloc: Global, disk: &mut D) -> Result<Vec<u8>, OutError>
    requires { WhereTold (D.content disk.old) (λ file. Only file (D.may_leave_synced disk.old)) }
    ensures bytes { IfOk result (λ bytes. WhereTold (D.content disk.new) (λ file. bytes.items ≡ file)) }
    ensures kept { D.content disk.new ≡ D.content disk.old }
    ensures durable { OnOk result (WhereTold (D.content disk.new) (λ file. Only file
        (D.may_leave disk.new))) }
    ensures crash { (image : List ℕ) → D.may_leave disk.new image → D.may_leave disk.old image }
    ensures any_moment { LeavesOnly D.moment D.left_since disk.old disk.new (D.may_leave disk.old) }
    ensures count { CountsFaults result (D.failures disk.old) (D.failures disk.new) }
{
    disk.sync()?;
    disk.read(alloc)
}

// What is held of a file with which one begins: all of it, where it stays as it is.
fn held_of(stage: Stage, file: Vec<u8>) -> Option<Vec<u8>>
    ensures { IfSome result (λ held. (held ≡ file) × (stage ≡ Stage.Shut) × (counts_empty stage file.items ≡ false)) }
{
    match stage {
        Stage::Shut if !is_empty_store(&file) => Some(file),
        _ => None,
    }
}

/// Begins to keep rows. A store that counts as empty becomes a journal without records, and every other file is left as
/// it is, and held, so that it need not be read again.
pub(crate) fn begin<D: Disk>(
    alloc: Global,
    disk: &mut D,
    stage: &mut Stage,
    held: &mut Option<Vec<u8>>,
) -> Result<(), OutError>
    requires none { held.old ≡ None }
    requires sound { IsSound stage.old (D.content disk.old) (D.may_leave disk.old) }
    requires sure { WhereTold (D.content disk.old) (λ file. Only file (D.may_leave_synced disk.old)) }
    ensures sound { IsSound stage.new (D.content disk.new) (D.may_leave disk.new) }
    ensures done { OnOk result (option_map (seen_by stage.new) (D.content disk.new)
        ≡ option_map begun (option_map (seen_by stage.old) (D.content disk.old))) }
    ensures unchanged { OnErr result (option_map (seen_by stage.new) (D.content disk.new)
        ≡ option_map (seen_by stage.old) (D.content disk.old)) }
    ensures found { OnOk result (WhereTold (D.content disk.new) (IsFound stage.new)) }
    ensures doubt { doubted stage.new (D.content disk.new) ≡ doubted stage.old (D.content disk.old) }
    ensures any_moment { WhereTold (D.content disk.old) (λ file.
        LeavesOnly D.moment D.left_since disk.old disk.new (IsBegun stage.old file (D.may_leave disk.old))) }
    ensures holds { Holds held.new stage.new (D.content disk.new) }
    ensures count { CountsFaults result (D.failures disk.old) (D.failures disk.new) }
{
    let before = *stage;
    let file = read_synced(alloc, disk)?;
    let done = begin_with(disk, stage, &file);
    *held = held_of(before, file);
    done
}
