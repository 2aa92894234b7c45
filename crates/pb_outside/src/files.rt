//! Files that are read whole, by name.
ghost use Rattle.std.specs.Prelude.{◌≡◌, IfOk, IfSome, OnOk};
ghost use Rattle.std.specs.Option.{option_map};
ghost use Rattle.pb_outside.specs.Faults.{IsLater};
ghost use Rattle.pb_outside.specs.Files.{FilesTold, ReadsFile, FailsToRead, IsWithin};

use crate::{FaultCount, OutError, StreamSource, read_up_to};
use std::alloc::Global;
use std::io::Read;
use std::{fs, rt};

/// Files that are read whole.
pub trait Files {
    /// The files, and the faults so far.
    ghost told: { Self → FilesTold };

    /// The content of a file, or None where it is longer than `max` bytes. A missing file is a fault.
    fn read(&mut self, alloc: Global, name: &str, max: usize) -> Result<Option<Vec<u8>>, OutError>
        ensures content { let content = option_map (λ bytes. bytes.items) in
            IfOk result (λ found. ReadsFile name.now max (told self.old).files (content found)) }
        ensures stays { OnOk result ((told self.new).faults.count ≡ (told self.old).faults.count) }
        ensures cause { result ≡ Err OutError.Failed → FailsToRead name.now (told self.old) (told self.new) }
        ensures kept { (told self.new).files ≡ (told self.old).files }
        ensures later { IsLater (told self.old).faults (told self.new).faults };

    /// How often a call has failed so far.
    fn faults(&self) -> u64
        ensures { result ≡ (told self.now).faults.count };
}

/// The files of the system. It tells no content.
#[derive(Drop)]
pub struct SystemFiles<'a, R: rt::Files> {
    system: &'a R,
    faults: FaultCount,
}

impl<'a, R: rt::Files> SystemFiles<'a, R> {
    /// No fault so far.
    pub fn new(system: &'a R) -> SystemFiles<'a, R>
        ensures { (⟦<SystemFiles<'a, R> as Files>⟧.told result).faults.count ≡ 0 }
    {
        SystemFiles {
            system,
            faults: FaultCount::new(),
        }
    }
}

impl<R: rt::Files> Files for SystemFiles<'_, R> {
    ghost use Rattle.std.specs.Prelude.{None, false};

    ghost told = { λ s. record { files = None; faults = record { count = s.faults; faultless = false } } };

    fn read(&mut self, alloc: Global, name: &str, max: usize) -> Result<Option<Vec<u8>>, OutError> {
        match read_file(alloc, self.system, name, max) {
            Err(OutError::Failed) => self.faults.fail(),
            answer => answer,
        }
    }

    fn faults(&self) -> u64 {
        self.faults.faults()
    }
}

// The content of a file of the system, or None where it is longer than `max` bytes.
fn read_file<R: rt::Files>(
    alloc: Global,
    system: &R,
    name: &str,
    max: usize,
) -> Result<Option<Vec<u8>>, OutError> {
    match fs::open(system, name) {
        Ok(file) => read_within(alloc, file, max),
        Err(_) => Err(OutError::Failed),
    }
}

// The content of a reader, or None where it is longer than `max` bytes.
fn read_within<R: Read + Drop>(
    alloc: Global,
    reader: R,
    max: usize,
) -> Result<Option<Vec<u8>>, OutError>
    ensures { let content = option_map (λ bytes. bytes.items) in
        IfOk result (λ found. IfSome (R.remaining reader) (λ all. IsWithin max all (content found))) }
{
    let mut source = StreamSource::new(reader);
    let bytes = read_up_to(alloc, &mut source, max.saturating_add(1))?;
    Ok(if bytes.len() > max { None } else { Some(bytes) })
}
