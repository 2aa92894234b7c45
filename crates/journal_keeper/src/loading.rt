//! Loads all rows.
ghost use Rattle.std.specs.Prelude.{◌≡◌, ◌⊎◌, List, ℕ, None, IfOk, IfSome};
ghost use Rattle.std.specs.Option.{option_map};
ghost use Rattle.keeper.specs.Rows.{kept_of, bare};
ghost use Rattle.disk.specs.Disk.{WhereTold, LeavesOnly, CountsFaults};
ghost use Rattle.journal_keeper.specs.Journal.{entries_from, rows_of, kept_in};
ghost use Rattle.journal_keeper.specs.Stage.{seen_by, doubted, is_open, StillStands};
ghost use Rattle.journal_keeper.specs.Sound.{IsSound};
ghost use Rattle.journal_keeper.specs.Held.{IsKept};
ghost use Rattle.journal_keeper.specs.Tables.{kept_where_found};
ghost use Rattle.journal_keeper.specs.Found.{kept_by_found};

use crate::Stage;
use crate::journal::settle;
use crate::reading::{body_of, is_empty_store, record_at};
use crate::tables::Tables;
use disk::Disk;
use keeper::Rows;
use pb_base::Memory;
use pb_outside::OutError;
use std::alloc::Global;

fn no_rows(alloc: Global, form: u64) -> Rows
    ensures { kept_of result ≡ bare form }
{
    Rows {
        form,
        drafts: Vec::new(alloc),
        books: Vec::new(alloc),
        orders: Vec::new(alloc),
        withdrawn: Vec::new(alloc),
    }
}

// The rows of what begins with a gate, or None where that is no journal.
fn gathered(alloc: Global, body: &[u8]) -> Result<Option<Tables>, Memory>
    ensures { IfOk result (λ found. rows_of (entries_from body.now) ≡ kept_where_found found) }
{
    let mut tables = Tables::new(alloc);
    let mut rest = body;
    while let Some((1, line)) = rest.split_first() {
        let Some((read, next)) = record_at(line) else {
            return Ok(None);
        };
        tables.set(alloc, read)?;
        rest = next;
    }
    if rest.is_empty() {
        return Ok(None);
    }
    Ok(Some(tables))
}

// What a file keeps.
#[derive(Drop)]
enum Found {
    // No rows, and this form.
    Bare(u64),
    Journal(Tables),
}

fn found_in(alloc: Global, file: &[u8]) -> Result<Found, Memory>
    ensures { IfOk result (λ found. kept_by_found found ≡ kept_in file.now) }
{
    if is_empty_store(file) {
        return Ok(Found::Bare(0));
    }
    let Some(body) = body_of(file) else {
        return Ok(Found::Bare(3));
    };
    match gathered(alloc, body)? {
        Some(tables) => Ok(Found::Journal(tables)),
        None => Ok(Found::Bare(3)),
    }
}

fn rows_found(alloc: Global, found: Found) -> Result<Rows, Memory>
    ensures { IfOk result (λ rows. kept_of rows ≡ kept_by_found found) }
{
    match found {
        Found::Bare(form) => Ok(no_rows(alloc, form)),
        Found::Journal(tables) => tables.into_rows(alloc),
    }
}

// The file as it is. What is held of it need not be read again.
fn file_of<D: Disk>(alloc: Global, disk: &mut D, held: Option<Vec<u8>>) -> Result<Vec<u8>, OutError>
    requires { IfSome held (λ held. WhereTold (D.content disk.old) (λ file. held.items ≡ file)) }
    ensures bytes { IfOk result (λ bytes. WhereTold (D.content disk.old) (λ file. bytes.items ≡ file)) }
    ensures kept { D.content disk.new ≡ D.content disk.old }
    ensures crash { (image : List ℕ) → D.may_leave disk.new image → D.may_leave disk.old image }
    ensures any_moment { LeavesOnly D.moment D.left_since disk.old disk.new (D.may_leave disk.old) }
    ensures count { CountsFaults result (D.failures disk.old) (D.failures disk.new) }
{
    match held {
        Some(file) => Ok(file),
        None => disk.read(alloc),
    }
}

// The rows of the file as it is.
fn read_rows<D: Disk>(alloc: Global, disk: &mut D, held: Option<Vec<u8>>) -> Result<Rows, OutError>
    requires { IfSome held (λ held. WhereTold (D.content disk.old) (λ file. held.items ≡ file)) }
    ensures rows { IfOk result (λ rows. WhereTold (D.content disk.old) (λ file. kept_of rows
        ≡ kept_in file)) }
    ensures kept { D.content disk.new ≡ D.content disk.old }
    ensures crash { (image : List ℕ) → D.may_leave disk.new image → D.may_leave disk.old image }
    ensures any_moment { LeavesOnly D.moment D.left_since disk.old disk.new (D.may_leave disk.old) }
    ensures count { CountsFaults result (D.failures disk.old) (D.failures disk.new) }
{
    let file = file_of(alloc, disk, held)?;
    let found = found_in(alloc, &file)?;
    // The tables have copies of its texts.
    drop(file);
    Ok(rows_found(alloc, found)?)
}

/// All rows, in the order of their keys.
pub(crate) fn load<D: Disk>(
    alloc: Global,
    disk: &mut D,
    stage: &mut Stage,
    held: Option<Vec<u8>>,
) -> Result<Rows, OutError>
    requires { IsKept held stage.old (D.content disk.old) (D.may_leave disk.old) }
    ensures rows { IfOk result (λ rows. IfSome (option_map (seen_by stage.old) (D.content disk.old))
        (λ kept. kept_of rows ≡ kept)) }
    ensures sound { IsSound stage.new (D.content disk.new) (D.may_leave disk.new) }
    ensures told { option_map (seen_by stage.new) (D.content disk.new)
        ≡ option_map (seen_by stage.old) (D.content disk.old) }
    ensures any_moment { WhereTold (D.content disk.old) (λ file.
        LeavesOnly D.moment D.left_since disk.old disk.new (StillStands stage.old file)) }
    ensures doubt { (doubted stage.new (D.content disk.new) ≡ None)
        ⊎ (doubted stage.new (D.content disk.new) ≡ doubted stage.old (D.content disk.old)) }
    ensures stays_open { is_open stage.new ≡ is_open stage.old }
    ensures count { CountsFaults result (D.failures disk.old) (D.failures disk.new) }
{
    if let Stage::Late = *stage {
        return Ok(no_rows(alloc, 0));
    }
    settle(disk, stage)?;
    read_rows(alloc, disk, held)
}
