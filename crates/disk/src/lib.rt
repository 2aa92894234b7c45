//! One file on a disk that may stop at any moment: what is promised of it, a file of the system, and a file in memory.
#![tactic(auto)]

mod disk;
mod file_calls;
mod file_disk;
mod memory_disk;
mod system_file;
mod through;

pub use disk::Disk;
pub use file_calls::FileCalls;
pub use file_disk::FileDisk;
pub use memory_disk::MemoryDisk;
pub use system_file::SystemFile;
pub use through::{cut_through, write_through};
