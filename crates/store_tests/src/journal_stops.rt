//! The bytes of a journal, puts that fail, and stops at each call.

use crate::journal_rows::{disk, put, shown, started};
use journal_keeper::JournalKeeper;
use keeper::Keeper;
use pb_base::Text;
use pb_outside::OutError;
use std::alloc::Global;
use std::test::Fail;

// What is there after so many puts.
const AFTER: [&[u8]; 6] = [
    b"2",
    b"2 a",
    b"2 a y",
    b"2 a y M",
    b"2 a y M 1",
    b"2 e y M 1",
];

// Begins on an empty disk that stops in this call, makes five puts, and starts anew on an image. It gives how many puts were
// answered with Ok and what is there.
fn stopped(alloc: Global, stop: u64) -> Result<(u8, Text), Fail> {
    let mut keeper = JournalKeeper::new(alloc, disk(alloc, b"", &[], Some(stop))?);
    let mut done = 0u8;
    if keeper.begin("").is_ok() {
        for step in 0..5u8 {
            if put(alloc, &mut keeper, step)?.is_err() {
                break;
            }
            done = step + 1;
        }
    }
    let image = keeper.into_disk().image()?;
    Ok((done, started(alloc, &image)?))
}

#[test]
fn a_stop_in_any_call_leaves_the_puts_that_were_answered_or_one_more(
    rt: HostRuntime,
) -> Result<(), Fail> {
    let alloc = rt.alloc();
    for stop in 0..32 {
        let (done, there) = stopped(alloc, stop)?;
        let done = usize::from(done);
        let is_kept = Some(&there.bytes()) == AFTER.get(done);
        let is_more = Some(&there.bytes()) == AFTER.get(done + 1);
        assert!(rt; is_kept || is_more, "{stop} {done}");
    }
    Ok(())
}

// Makes five puts, each once more where a call of it failed, and starts anew on an image.
fn tried_again(alloc: Global, fails: u64) -> Result<Text, Fail> {
    let mut keeper = JournalKeeper::new(alloc, disk(alloc, b"", &[fails], None)?);
    keeper.begin("")?;
    for step in 0..5 {
        if put(alloc, &mut keeper, step)?.is_err() {
            put(alloc, &mut keeper, step)??;
        }
    }
    let image = keeper.into_disk().image()?;
    started(alloc, &image)
}

#[test]
fn what_is_answered_behind_a_call_that_failed_is_left_by_a_stop(
    rt: HostRuntime,
) -> Result<(), Fail> {
    let alloc = rt.alloc();
    // `begin` takes the calls 0 to 9, and each put 4. What was written before a sync that fails is lost.
    for fails in 10..30 {
        assert_eq!(rt; tried_again(alloc, fails)?.bytes(), AFTER[5], "{fails}");
    }
    Ok(())
}

#[test]
fn the_gate_of_a_put_that_failed_early_is_not_touched(rt: HostRuntime) -> Result<(), Fail> {
    let alloc = rt.alloc();
    // The first write of the second put fails, and the disk stops in that of the third.
    let mut keeper = JournalKeeper::new(alloc, disk(alloc, b"", &[14], Some(15))?);
    keeper.begin("")?;
    assert_eq!(rt; put(alloc, &mut keeper, 0)?, Ok(()));
    assert_eq!(rt; put(alloc, &mut keeper, 1)?, Err(OutError::Failed));
    assert_eq!(rt; put(alloc, &mut keeper, 2)?, Err(OutError::Failed));
    let image = keeper.into_disk().image()?;
    assert_eq!(rt; started(alloc, &image)?.bytes(), AFTER[1]);
    Ok(())
}
