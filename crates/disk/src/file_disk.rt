//! A disk that is a file of the system.
ghost use Rattle.std.specs.Prelude.{◌≡◌, ◌≢◌, true, false, [], ◌∷◌, None, Err, OnOk};
ghost use Rattle.disk.specs.Disk.{Elapses, CountsFaults};
ghost use Rattle.disk.specs.SystemCalls.{CheckName, Read, Write, SetLen, Sync, Ran, with_opening, error_of, given};

use crate::{Disk, FileCalls};
use pb_outside::{FaultCount, OutError};
use std::alloc::Global;
use std::marker::Model;

/// One file of the system. It is opened by the first call, and held to the end: made where there is none, locked, and
/// made to read as it is on the disk. Each later call goes to the file that is held, and none makes another. It tells no
/// content. An error that is not want of memory is counted as a fault.
#[derive(Drop)]
pub struct FileDisk<C: FileCalls> {
    calls: C,
    is_open: bool,
    faults: FaultCount,
}

impl<C: FileCalls> Model for FileDisk<C> {
    ghost use Rattle.disk.specs.FileDisk.{Holding};

    ghost Value = { Holding C };

    ghost view = { λ d. record { calls = d.calls; is_open = d.is_open; faults = d.faults } };
}

impl<C: FileCalls> FileDisk<C> {
    /// The file is not open yet, and there was no fault.
    pub fn new(calls: C) -> FileDisk<C>
        ensures calls { result.calls ≡ calls }
        ensures not_open { result.is_open ≡ false }
        ensures faults { result.faults ≡ 0 }
    {
        FileDisk {
            calls,
            is_open: false,
            faults: FaultCount::new(),
        }
    }

    /// What made the calls, as it is now.
    pub fn into_calls(self) -> C
        ensures { result ≡ self.calls }
    {
        let FileDisk {
            calls,
            is_open: _,
            faults: _,
        } = self;
        calls
    }
}

// Opens the file, where it isn't open yet.
fn hold<C: FileCalls>(calls: &mut C, is_open: &mut bool) -> Result<(), OutError>
    ensures calls { Ran (with_opening is_open.old []) (error_of result) (C.history calls.old)
        (C.history calls.new) }
    ensures open { OnOk result (is_open.new ≡ true) }
    ensures stays_open { is_open.old ≡ true → is_open.new ≡ true }
    ensures no_memory { result ≢ Err OutError.Memory }
{
    if *is_open {
        return Ok(());
    }
    calls.open()?;
    calls.lock()?;
    calls.sync()?;
    calls.forget()?;
    calls.sync_folder()?;
    *is_open = true;
    Ok(())
}

// Reads the file, once it is open.
fn read<C: FileCalls>(alloc: Global, calls: &mut C, is_open: &mut bool) -> Result<Vec<u8>, OutError>
    ensures calls { Ran (with_opening is_open.old (Read (given result) ∷ [])) (error_of result)
        (C.history calls.old) (C.history calls.new) }
    ensures open { OnOk result (is_open.new ≡ true) }
    ensures stays_open { is_open.old ≡ true → is_open.new ≡ true }
{
    hold(calls, is_open)?;
    calls.read(alloc)
}

// Writes, once the file is open.
fn write<C: FileCalls>(
    calls: &mut C,
    is_open: &mut bool,
    at: u64,
    bytes: &[u8],
) -> Result<(), OutError>
    ensures calls { Ran (with_opening is_open.old (Write at bytes.now ∷ [])) (error_of result)
        (C.history calls.old) (C.history calls.new) }
    ensures open { OnOk result (is_open.new ≡ true) }
    ensures stays_open { is_open.old ≡ true → is_open.new ≡ true }
    ensures no_memory { result ≢ Err OutError.Memory }
{
    hold(calls, is_open)?;
    calls.write(at, bytes)
}

// Makes the file so long, once it is open.
fn set_len<C: FileCalls>(calls: &mut C, is_open: &mut bool, len: u64) -> Result<(), OutError>
    ensures calls { Ran (with_opening is_open.old (SetLen len ∷ [])) (error_of result)
        (C.history calls.old) (C.history calls.new) }
    ensures open { OnOk result (is_open.new ≡ true) }
    ensures stays_open { is_open.old ≡ true → is_open.new ≡ true }
    ensures no_memory { result ≢ Err OutError.Memory }
{
    hold(calls, is_open)?;
    calls.set_len(len)
}

// Syncs the file, once it is open. What was written is of use only where the next start finds it, so the file must then
// stand under its name.
fn sync<C: FileCalls>(calls: &mut C, is_open: &mut bool) -> Result<(), OutError>
    ensures calls { Ran (with_opening is_open.old (Sync ∷ CheckName ∷ [])) (error_of result)
        (C.history calls.old) (C.history calls.new) }
    ensures open { OnOk result (is_open.new ≡ true) }
    ensures stays_open { is_open.old ≡ true → is_open.new ≡ true }
    ensures no_memory { result ≢ Err OutError.Memory }
{
    hold(calls, is_open)?;
    calls.sync()?;
    calls.check_name()
}

// The answer of a call. It is counted as a fault where it is an error that is not want of memory.
fn counted<T>(faults: &mut FaultCount, done: Result<T, OutError>) -> Result<T, OutError>
    ensures answer { result ≡ done }
    ensures count { CountsFaults result faults.old faults.new }
{
    if let Err(OutError::Failed) = &done {
        faults.raise();
    }
    done
}

impl<C: FileCalls> Disk for FileDisk<C> {
    ghost content = { λ _. None };

    ghost may_leave = { λ _ _. ⊥ };

    ghost may_leave_synced = { λ _ _. ⊥ };

    ghost moment = { λ _. 0 };

    ghost left_since = { λ _ _ _. ⊥ };

    ghost may_begin = { λ d name. C.named d.calls name };

    ghost failures = { λ d. d.faults };

    ghost synced_now = { λ _ _ never. never };

    ghost begins_sure = { λ _ _ _ _ _ _ never. absurd never };

    ghost counts_now = { λ _ _ _ _ never. never };

    ghost only_now = { λ _ _ never. never };

    fn read(&mut self, alloc: Global) -> Result<Vec<u8>, OutError>
        ensures calls { Ran (with_opening self.old.is_open (Read (given result) ∷ [])) (error_of result)
            (C.history self.old.calls) (C.history self.new.calls) }
        ensures open { OnOk result (self.new.is_open ≡ true) }
        ensures stays_open { self.old.is_open ≡ true → self.new.is_open ≡ true }
        ensures count { CountsFaults result self.old.faults self.new.faults }
    {
        let done = read(alloc, &mut self.calls, &mut self.is_open);
        counted(&mut self.faults, done)
    }

    fn write_at(&mut self, at: u64, bytes: &[u8]) -> Result<(), OutError>
        ensures calls { Ran (with_opening self.old.is_open (Write at bytes.now ∷ [])) (error_of result)
            (C.history self.old.calls) (C.history self.new.calls) }
        ensures open { OnOk result (self.new.is_open ≡ true) }
        ensures stays_open { self.old.is_open ≡ true → self.new.is_open ≡ true }
        ensures no_memory { result ≢ Err OutError.Memory }
        ensures count { CountsFaults result self.old.faults self.new.faults }
    {
        let done = write(&mut self.calls, &mut self.is_open, at, bytes);
        counted(&mut self.faults, done)
    }

    fn cut(&mut self, len: u64) -> Result<(), OutError>
        ensures calls { Ran (with_opening self.old.is_open (SetLen len ∷ [])) (error_of result)
            (C.history self.old.calls) (C.history self.new.calls) }
        ensures open { OnOk result (self.new.is_open ≡ true) }
        ensures stays_open { self.old.is_open ≡ true → self.new.is_open ≡ true }
        ensures no_memory { result ≢ Err OutError.Memory }
        ensures count { CountsFaults result self.old.faults self.new.faults }
    {
        let done = set_len(&mut self.calls, &mut self.is_open, len);
        counted(&mut self.faults, done)
    }

    fn sync(&mut self) -> Result<(), OutError>
        ensures calls { Ran (with_opening self.old.is_open (Sync ∷ CheckName ∷ [])) (error_of result)
            (C.history self.old.calls) (C.history self.new.calls) }
        ensures open { OnOk result (self.new.is_open ≡ true) }
        ensures stays_open { self.old.is_open ≡ true → self.new.is_open ≡ true }
        ensures no_memory { result ≢ Err OutError.Memory }
        ensures count { CountsFaults result self.old.faults self.new.faults }
    {
        let done = sync(&mut self.calls, &mut self.is_open);
        counted(&mut self.faults, done)
    }

    fn faults(&self) -> u64 {
        self.faults.faults()
    }
}
