//! What a run is handed from outside.

use crate::case::Case;
use crate::door::door_of;
use crate::named_text::NamedText;
use crate::rows::rows_of;
use commands::{Channels, RunLog, World};
use keeper::MemoryKeeper;
use pb_base::Memory;
use pb_door::MemoryDoor;
use pb_outside::{MemoryFiles, MemorySink, MemorySource, NamedFile, OutError, read_up_to};
use std::alloc::Global;

// More than any source has left.
const ALL: usize = 100_000_000;

/// What a run is handed beside its words, all of it in memory.
pub type Outside = World<MemorySource, MemorySink, MemoryFiles, MemoryKeeper, MemoryDoor>;

/// What a run of the case on this input is handed, over the rows of the store. The source gives it in these pieces.
pub fn outside_of(
    alloc: Global,
    case: &Case<'_>,
    input: &[u8],
    pieces: &[usize],
    store: &mut MemoryKeeper,
) -> Result<Outside, Memory> {
    Ok(World {
        keeper: keeper_of(alloc, case, store)?,
        channels: Channels {
            source: source_of(alloc, case, input, pieces)?,
            sink: sink_of(alloc, case)?,
            files: files_of(alloc, case)?,
            door: door_of(alloc, case)?,
            log: RunLog::new(alloc),
        },
    })
}

fn keeper_of(
    alloc: Global,
    case: &Case<'_>,
    store: &mut MemoryKeeper,
) -> Result<MemoryKeeper, Memory> {
    let fails = case.keeper_fails.to_vec(alloc)?;
    let rows = rows_of(alloc, store)?;
    Ok(MemoryKeeper::new(rows, fails))
}

fn source_of(
    alloc: Global,
    case: &Case<'_>,
    input: &[u8],
    pieces: &[usize],
) -> Result<MemorySource, Memory> {
    let input = input.to_vec(alloc)?;
    let pieces = pieces.to_vec(alloc)?;
    let fails = case.source_fails.to_vec(alloc)?;
    Ok(MemorySource::new(input, pieces, fails))
}

fn files_of(alloc: Global, case: &Case<'_>) -> Result<MemoryFiles, Memory> {
    let mut files = Vec::new(alloc);
    put_files(alloc, &mut files, &case.files)?;
    let fails = case.files_fails.to_vec(alloc)?;
    Ok(MemoryFiles::new(files, fails))
}

fn put_files(
    alloc: Global,
    copies: &mut Vec<NamedFile>,
    files: &[NamedText<'_>],
) -> Result<(), Memory> {
    for file in files {
        copies.push(file_of(alloc, file)?)?;
    }
    Ok(())
}

fn file_of(alloc: Global, file: &NamedText<'_>) -> Result<NamedFile, Memory> {
    Ok(NamedFile {
        name: String::from_str(alloc, file.name)?,
        content: file.text.bytes().to_vec(alloc)?,
    })
}

fn sink_of(alloc: Global, case: &Case<'_>) -> Result<MemorySink, Memory> {
    let fails = case.sink_fails.to_vec(alloc)?;
    MemorySink::new(alloc, case.room as usize, fails)
}

/// How many bytes a source has left, which are read by this.
pub fn bytes_left(alloc: Global, source: &mut MemorySource) -> Result<usize, Memory> {
    match read_up_to(alloc, source, ALL) {
        Ok(rest) => Ok(rest.len()),
        Err(OutError::Failed) => Ok(0),
        Err(OutError::Memory) => Err(Memory),
    }
}
