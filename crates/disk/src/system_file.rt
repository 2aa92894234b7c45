//! A file of the system, by its name.
ghost use Rattle.std.specs.Prelude.{◌≡◌, None, Ok, Err, OnErr, IfOk, string_bytes};

use crate::FileCalls;
use pb_outside::OutError;
use std::alloc::Global;
use std::fs::{self, File, OpenOptions};
use std::io::{self, ErrorKind};
use std::os::fd::AsRawFd;
use std::os::unix::fs::{FileExt, MetadataExt};

/// A file of the system, by its name. It tells none of its calls: what the system makes of them, no contract can say.
#[derive(Drop)]
pub struct SystemFile {
    rt: HostRuntime,
    name: String,
    file: Option<File>,
}

impl SystemFile {
    /// The file is not open yet.
    pub fn new(rt: HostRuntime, name: String) -> SystemFile
        ensures { (⟦<SystemFile as FileCalls>⟧.named result (string_bytes name)) }
    {
        SystemFile {
            rt,
            name,
            file: None,
        }
    }
}

// The system's answer, for a call for which it never lacks memory of ours.
fn answer<T: Drop>(done: io::Result<T>) -> Result<T, OutError>
    ensures done { IfOk done (λ value. result ≡ Ok value) }
    ensures failed { OnErr done (result ≡ Err OutError.Failed) }
{
    match done {
        Ok(value) => Ok(value),
        Err(_) => Err(OutError::Failed),
    }
}

fn open(rt: &HostRuntime, name: &str) -> io::Result<File> {
    match OpenOptions::new().read(true).write(true).open(rt, name) {
        Err(error) if error.kind() == ErrorKind::NotFound => OpenOptions::new()
            .read(true)
            .write(true)
            .create(true)
            .open(rt, name),
        opened => opened,
    }
}

// Drops the pages that the system has in memory.
fn forget(file: &File) -> io::Result<()> {
    let advised = libc::posix_fadvise(file.as_raw_fd(), 0, 0, libc::POSIX_FADV_DONTNEED);
    if advised != 0 {
        return Err(io::Error::from_raw_os_error(advised));
    }
    Ok(())
}

// Syncs the folder to which the name leads through all links.
fn sync_folder(rt: &HostRuntime, name: &str) -> io::Result<()> {
    let mut folder = fs::canonicalize(rt, name)?;
    folder.pop();
    File::open(rt, folder.as_str())?.sync_all()
}

// Whether the file of this name is this file.
fn is_under(rt: &HostRuntime, name: &str, file: &File) -> io::Result<bool> {
    let named = fs::metadata(rt, name)?;
    let open = file.metadata()?;
    Ok(named.dev() == open.dev() && named.ino() == open.ino())
}

// The bytes in one vector, which is made as long as the file.
fn read(alloc: Global, file: &File) -> io::Result<Vec<u8>> {
    let len = file.metadata()?.len();
    let mut bytes = vec![in alloc; 0; len as usize]?;
    file.read_exact_at(&mut bytes, 0)?;
    Ok(bytes)
}

impl FileCalls for SystemFile {
    ghost history = { λ _. None };

    ghost named = { λ f name. string_bytes f.name ≡ name };

    fn open(&mut self) -> Result<(), OutError> {
        self.file = Some(answer(open(&self.rt, &self.name))?);
        Ok(())
    }

    fn lock(&mut self) -> Result<(), OutError> {
        let Some(file) = &self.file else {
            return Err(OutError::Failed);
        };
        answer(file.try_lock().map_err(io::Error::from))
    }

    fn forget(&mut self) -> Result<(), OutError> {
        let Some(file) = &self.file else {
            return Err(OutError::Failed);
        };
        answer(forget(file))
    }

    fn sync_folder(&mut self) -> Result<(), OutError> {
        answer(sync_folder(&self.rt, &self.name))
    }

    fn check_name(&mut self) -> Result<(), OutError> {
        let Some(file) = &self.file else {
            return Err(OutError::Failed);
        };
        if answer(is_under(&self.rt, &self.name, file))? {
            Ok(())
        } else {
            Err(OutError::Failed)
        }
    }

    fn read(&mut self, alloc: Global) -> Result<Vec<u8>, OutError> {
        let Some(file) = &self.file else {
            return Err(OutError::Failed);
        };
        match read(alloc, file) {
            Err(error) if error.kind() == ErrorKind::OutOfMemory => Err(OutError::Memory),
            done => answer(done),
        }
    }

    fn write(&mut self, at: u64, bytes: &[u8]) -> Result<(), OutError> {
        let Some(file) = &self.file else {
            return Err(OutError::Failed);
        };
        answer(file.write_all_at(bytes, at))
    }

    fn set_len(&mut self, len: u64) -> Result<(), OutError> {
        let Some(file) = &self.file else {
            return Err(OutError::Failed);
        };
        answer(file.set_len(len))
    }

    fn sync(&mut self) -> Result<(), OutError> {
        let Some(file) = &self.file else {
            return Err(OutError::Failed);
        };
        answer(file.sync_data())
    }
}
