//! Which calls a file is asked, in which sequence, and what is answered where one of them fails.
ghost use Rattle.std.specs.Prelude.{◌≢◌, None, Err, ⊤};

use disk::{FileCalls, FileDisk};
use journal_keeper::JournalKeeper;
use keeper::Keeper;
use pb_base::Text;
use pb_outside::OutError;
use std::alloc::Global;
use std::test::Fail;

// A file in memory that writes down its calls, of which one may fail.
#[derive(Drop)]
struct ListedFile {
    list: Text,
    bytes: Vec<u8>,
    number: u64,
    fails: Option<u64>,
}

impl ListedFile {
    fn new(alloc: Global, fails: Option<u64>) -> ListedFile {
        ListedFile {
            list: Text::new(alloc),
            bytes: Vec::new(alloc),
            number: 0,
            fails,
        }
    }

    // The next call.
    fn call(&mut self, name: &[u8]) -> Result<(), OutError>
        ensures { result ≢ Err OutError.Memory }
    {
        let number = self.number;
        self.number = number.saturating_add(1);
        if self.list.put(name).is_err() || self.fails == Some(number) {
            return Err(OutError::Failed);
        }
        Ok(())
    }

    // The file with these bytes at this place.
    fn overwrite(&mut self, at: usize, bytes: &[u8]) -> Result<(), OutError>
        ensures { result ≢ Err OutError.Memory }
    {
        for (place, byte) in bytes.iter().enumerate() {
            let place = at.saturating_add(place);
            if place < self.bytes.len() {
                self.bytes[place] = *byte;
            } else if self.bytes.push(*byte).is_err() {
                return Err(OutError::Failed);
            }
        }
        Ok(())
    }
}

impl FileCalls for ListedFile {
    ghost history = { λ _. None };

    ghost named = { λ _ _. ⊤ };

    fn open(&mut self) -> Result<(), OutError> {
        self.call(b"open ")
    }

    fn lock(&mut self) -> Result<(), OutError> {
        self.call(b"lock ")
    }

    fn forget(&mut self) -> Result<(), OutError> {
        self.call(b"forget ")
    }

    fn sync_folder(&mut self) -> Result<(), OutError> {
        self.call(b"folder ")
    }

    fn check_name(&mut self) -> Result<(), OutError> {
        self.call(b"name ")
    }

    fn read(&mut self, alloc: Global) -> Result<Vec<u8>, OutError> {
        self.call(b"read ")?;
        Ok(Vec::from_slice(alloc, &self.bytes)?)
    }

    fn write(&mut self, at: u64, bytes: &[u8]) -> Result<(), OutError> {
        self.call(b"write ")?;
        self.overwrite(at as usize, bytes)
    }

    fn set_len(&mut self, len: u64) -> Result<(), OutError> {
        self.call(b"cut ")?;
        self.bytes.truncate(len as usize);
        Ok(())
    }

    fn sync(&mut self) -> Result<(), OutError> {
        self.call(b"sync ")
    }
}

// The calls of a start over an empty file, and of one put.
const CALLS: [&[u8]; 24] = [
    b"open ", b"lock ", b"sync ", b"forget ", b"folder ", b"sync ", b"name ", b"read ", b"cut ",
    b"sync ", b"name ", b"write ", b"sync ", b"name ", b"write ", b"sync ", b"name ", b"write ",
    b"sync ", b"name ", b"write ", b"sync ", b"name ", b"write ",
];

// What comes behind the last write of the put.
const LAST: [&[u8]; 2] = [b"sync ", b"name "];

const JOURNAL: &[u8] = b"\x01PBJOURN\x01\x04\x00\x00\x00\x08\x00\x00\x00\x00\x00\x00\x00\x01\x00";

// The first calls, up to one with this number.
fn listed(alloc: Global, last: u64) -> Result<Text, Fail> {
    let mut list = Text::new(alloc);
    for (number, name) in CALLS.iter().chain(LAST.iter()).enumerate() {
        if number as u64 <= last {
            list.put(name)?;
        }
    }
    Ok(list)
}

// A start over an empty file and a put, in which one call may fail: the answer, how many faults were counted, and the file.
fn started(
    alloc: Global,
    fails: Option<u64>,
) -> Result<(Result<(), OutError>, u64, ListedFile), Fail> {
    let mut keeper = JournalKeeper::new(alloc, FileDisk::new(ListedFile::new(alloc, fails)));
    let mut answer = keeper.begin("");
    if answer.is_ok() {
        answer = keeper.put_withdrawn(1);
    }
    let faults = keeper.faults();
    Ok((answer, faults, keeper.into_disk().into_calls()))
}

#[test]
fn a_start_and_a_put_ask_these_calls_in_this_sequence(rt: HostRuntime) -> Result<(), Fail> {
    let (answer, faults, file) = started(rt.alloc(), None)?;
    assert_eq!(rt; (answer, faults), (Ok(()), 0));
    assert_eq!(rt; file.list.bytes(), listed(rt.alloc(), 25)?.bytes());
    assert_eq!(rt; file.bytes.as_slice(), JOURNAL);
    Ok(())
}

#[test]
fn where_a_call_fails_that_is_the_answer_and_no_further_call_is_asked(
    rt: HostRuntime,
) -> Result<(), Fail> {
    for fails in 0..26 {
        let (answer, faults, file) = started(rt.alloc(), Some(fails))?;
        assert_eq!(rt; (answer, faults), (Err(OutError::Failed), 1), "{fails}");
        assert_eq!(rt;
            file.list.bytes(),
            listed(rt.alloc(), fails)?.bytes(),
            "{fails}"
        );
    }
    Ok(())
}
