//! The calls of the system on one file.
ghost use Rattle.std.specs.Prelude.{◌≡◌, ◌≢◌, List, ℕ, Option, Err};
ghost use Rattle.disk.specs.SystemCalls.{Answered, Open, Lock, Forget, SyncFolder, CheckName, Read, Write, SetLen, Sync, error_of, given, noted};

use pb_outside::OutError;
use std::alloc::Global;

/// What asks the system for what is to be done with one file. Each method is one call, or the few that are needed where
/// the system does it in parts, and its answer is the system's. Before `open` every other call fails.
pub trait FileCalls {
    /// The calls so far and their answers, where they are told.
    ghost history: { Self → Option (List Answered) };

    /// The file has this name.
    ghost named: { Self → List ℕ → Type 0 };

    /// Opens the file of the name, to read and write it. It is made where there is none.
    fn open(&mut self) -> Result<(), OutError>
        ensures told { history self.new ≡ noted Open (error_of result) (history self.old) }
        ensures no_memory { result ≢ Err OutError.Memory };

    /// Takes the file for this process alone. Where another holds it, the answer is an error at once.
    fn lock(&mut self) -> Result<(), OutError>
        ensures told { history self.new ≡ noted Lock (error_of result) (history self.old) }
        ensures no_memory { result ≢ Err OutError.Memory };

    /// Has the system drop what it has of the file in memory, so that the next read is one of the disk.
    fn forget(&mut self) -> Result<(), OutError>
        ensures told { history self.new ≡ noted Forget (error_of result) (history self.old) }
        ensures no_memory { result ≢ Err OutError.Memory };

    /// Syncs the folder in which the file stands, also where its name is a link to another one.
    fn sync_folder(&mut self) -> Result<(), OutError>
        ensures told { history self.new ≡ noted SyncFolder (error_of result) (history self.old) }
        ensures no_memory { result ≢ Err OutError.Memory };

    /// Fails where the open file no longer stands under its name: it was moved, removed or replaced.
    fn check_name(&mut self) -> Result<(), OutError>
        ensures told { history self.new ≡ noted CheckName (error_of result) (history self.old) }
        ensures no_memory { result ≢ Err OutError.Memory };

    /// All bytes of the file.
    fn read(&mut self, alloc: Global) -> Result<Vec<u8>, OutError>
        ensures told { history self.new ≡ noted (Read (given result)) (error_of result) (history self.old) };

    /// Writes all of these bytes at this place.
    fn write(&mut self, at: u64, bytes: &[u8]) -> Result<(), OutError>
        ensures told { history self.new ≡ noted (Write at bytes.now) (error_of result) (history self.old) }
        ensures no_memory { result ≢ Err OutError.Memory };

    /// Makes the file so many bytes long.
    fn set_len(&mut self, len: u64) -> Result<(), OutError>
        ensures told { history self.new ≡ noted (SetLen len) (error_of result) (history self.old) }
        ensures no_memory { result ≢ Err OutError.Memory };

    /// Waits until the bytes of the file and its length are on the disk.
    fn sync(&mut self) -> Result<(), OutError>
        ensures told { history self.new ≡ noted Sync (error_of result) (history self.old) }
        ensures no_memory { result ≢ Err OutError.Memory };
}
