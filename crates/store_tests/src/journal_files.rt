//! A journal in a real file.
ghost use Rattle.std.specs.Prelude.{IfOk};

use crate::journal_rows::shown;
use journal_keeper::FileJournal;
use keeper::Keeper;
use pb_outside::OutError;
use std::fs;
use std::test::Fail;

// One record: book 1 is withdrawn.
const WITHDRAWN: &[u8] = b"\x01PBJOURN\x01\x04\x00\x00\x00\x08\x00\x00\x00\x00\x00\x00\x00\x01\x00";

fn keeper_of(rt: HostRuntime, name: &str) -> Result<FileJournal, Fail>
    ensures { IfOk result (λ keeper. ⟦<FileJournal as Keeper>⟧.may_begin keeper name.now) }
{
    Ok(FileJournal::new(rt, String::from_str(rt.alloc(), name)?))
}

fn new_folder(rt: HostRuntime, folder: &str) -> Result<(), Fail> {
    let _ = fs::remove_dir_all(&rt, folder);
    fs::create_dir(&rt, folder)?;
    Ok(())
}

#[test]
fn a_journal_in_a_file_has_its_bytes_and_is_read_again(rt: HostRuntime) -> Result<(), Fail> {
    new_folder(rt, "journal_kept")?;
    let mut keeper = keeper_of(rt, "journal_kept/s.journal")?;
    keeper.begin("journal_kept/s.journal")?;
    keeper.put_withdrawn(1)?;
    assert_eq!(rt;
        fs::read(&rt, "journal_kept/s.journal")?.as_slice(),
        WITHDRAWN
    );
    let rows = keeper.load()?;
    assert_eq!(rt; shown(rt.alloc(), &rows)?.bytes(), b"2 1".as_slice());
    drop(keeper);
    let mut keeper = keeper_of(rt, "journal_kept/s.journal")?;
    keeper.begin("journal_kept/s.journal")?;
    let rows = keeper.load()?;
    assert_eq!(rt; shown(rt.alloc(), &rows)?.bytes(), b"2 1".as_slice());
    fs::remove_dir_all(&rt, "journal_kept")?;
    Ok(())
}

#[test]
fn a_second_keeper_is_refused_and_touches_nothing(rt: HostRuntime) -> Result<(), Fail> {
    new_folder(rt, "journal_locked")?;
    let mut first = keeper_of(rt, "journal_locked/s.journal")?;
    first.begin("journal_locked/s.journal")?;
    first.put_withdrawn(1)?;
    let mut second = keeper_of(rt, "journal_locked/s.journal")?;
    assert_eq!(rt;
        second.begin("journal_locked/s.journal"),
        Err(OutError::Failed)
    );
    assert_eq!(rt; second.put_withdrawn(2), Err(OutError::Failed));
    assert_eq!(rt;
        fs::read(&rt, "journal_locked/s.journal")?.as_slice(),
        WITHDRAWN
    );
    drop(first);
    let mut third = keeper_of(rt, "journal_locked/s.journal")?;
    third.begin("journal_locked/s.journal")?;
    fs::remove_dir_all(&rt, "journal_locked")?;
    Ok(())
}

#[test]
fn a_journal_that_was_moved_takes_no_put_and_is_not_made_anew(rt: HostRuntime) -> Result<(), Fail> {
    new_folder(rt, "journal_moved")?;
    let mut keeper = keeper_of(rt, "journal_moved/s.journal")?;
    keeper.begin("journal_moved/s.journal")?;
    fs::rename(&rt, "journal_moved/s.journal", "journal_moved/old.journal")?;
    assert_eq!(rt; keeper.put_withdrawn(1), Err(OutError::Failed));
    assert!(rt; fs::metadata(&rt, "journal_moved/s.journal").is_err());
    fs::rename(&rt, "journal_moved/old.journal", "journal_moved/s.journal")?;
    keeper.put_withdrawn(1)?;
    assert_eq!(rt;
        fs::read(&rt, "journal_moved/s.journal")?.as_slice(),
        WITHDRAWN
    );
    fs::remove_dir_all(&rt, "journal_moved")?;
    Ok(())
}

#[test]
fn a_folder_that_is_not_there_is_a_fault(rt: HostRuntime) -> Result<(), Fail> {
    let _ = fs::remove_dir_all(&rt, "journal_nowhere");
    let mut keeper = keeper_of(rt, "journal_nowhere/s.journal")?;
    assert_eq!(rt;
        keeper.begin("journal_nowhere/s.journal"),
        Err(OutError::Failed)
    );
    assert_eq!(rt; keeper.faults(), 1);
    Ok(())
}
