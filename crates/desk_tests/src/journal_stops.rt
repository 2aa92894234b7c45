//! A desk whose journal is on a disk in memory that fails or stops.
ghost use Rattle.std.specs.Prelude.{◌≡◌, [], IfOk};

use answering::{Alone, NoGate};
use disk::MemoryDisk;
use journal_keeper::JournalKeeper;
use order_desk::{Desk, DeskCounts, NotStarted};
use pb_outside::{MemoryLink, MemorySink, MemorySource};
use session::session;
use std::alloc::Global;
use std::process::Abort;
use std::test::Fail;

// A draft is put and released, and two orders are placed.
const DAY: &[u8] =
    b"PUT /drafts/T HTTP/1.1\r\nHost: localhost\r\nX-Caller: ANNA\r\nContent-Length: 319\r\n\r\nbook,T,1,1000\ncode,M1,engine one\ncode,M2,engine two\ncode,G5,five gears\ncode,G7,seven gears\ncode,AC,air\nconstruct,C1,*,M1/M2,,\nconstruct,C2,M1,-M2,,\nconstruct,C3,*,G5/G7,,\nconstruct,C4,G5,-G7,,\nsupplement,S1,10,G5,M1+-G7,,\nmodule,MOT,motor\nposition,P1,MOT,mandatory,,\nvariant,V1,P1,A100,1,M1,,\nvariant,V2,P1,A200,1,M2,,\nPOST /drafts/T/release HTTP/1.1\r\nHost: localhost\r\nX-Caller: ANNA\r\nContent-Length: 14\r\n\r\n{\"revision\":1}PUT /orders/7 HTTP/1.1\r\nHost: localhost\r\nX-Caller: HALL1\r\nContent-Length: 33\r\n\r\n{\"book\":1,\"day\":1,\"codes\":[\"M1\"]}PUT /orders/8 HTTP/1.1\r\nHost: localhost\r\nX-Caller: HALL1\r\nContent-Length: 38\r\n\r\n{\"book\":1,\"day\":1,\"codes\":[\"M2\",\"G7\"]}";

// One draft, put twice.
const TWICE: &[u8] =
    b"PUT /drafts/D HTTP/1.1\r\nHost: localhost\r\nX-Caller: ANNA\r\nContent-Length: 4\r\n\r\nbookPUT /drafts/D HTTP/1.1\r\nHost: localhost\r\nX-Caller: ANNA\r\nContent-Length: 4\r\n\r\nbook";

// What a new draft is answered with.
const CREATED: &[u8] =
    b"HTTP/1.1 201 Created\r\nContent-Type: text/plain\r\nContent-Length: 9\r\n\r\nkept D 1\n";

// What a request is answered with whose write to the store failed.
const FAULT: &[u8] =
    b"HTTP/1.1 503 Service Unavailable\r\nContent-Type: text/plain\r\nContent-Length: 12\r\n\r\nstore fault\n";

// How many calls of the disk a start takes, in which `begin` makes the journal and all is read, and how many a put takes.
const START: u64 = 11;

const PUT: u64 = 4;

fn link_of(alloc: Global, stream: &[u8]) -> Result<MemoryLink, Fail> {
    let source = MemorySource::new(stream.to_vec(alloc)?, Vec::new(alloc), Vec::new(alloc));
    let sink = MemorySink::new(alloc, 10_000, Vec::new(alloc))?;
    Ok(MemoryLink::new(source, sink))
}

fn disk_of(
    alloc: Global,
    content: &[u8],
    fails: &[u64],
    stop: Option<u64>,
) -> Result<MemoryDisk, Fail>
    ensures { IfOk result (λ disk. disk.calls ≡ []) }
{
    let content = content.to_vec(alloc)?;
    Ok(MemoryDisk::new(content, 4096, 100, fails.to_vec(alloc)?, stop)?)
}

// A desk over this disk that answers the stream, where it starts. It gives the disk back.
fn run(alloc: Global, disk: MemoryDisk, link: &mut MemoryLink) -> MemoryDisk
    requires { disk.calls ≡ [] }
{
    match Desk::start(alloc, JournalKeeper::new(alloc, disk), "day.journal") {
        Ok(desk) => {
            let mut turns = Alone::new(desk, 100);
            let _end = session(alloc, link, &mut turns, &NoGate);
            turns.into_desk().finish().into_disk()
        }
        Err(NotStarted { why: _, keeper }) => keeper.into_disk(),
    }
}

// How much a desk has that is started on this file.
fn found<A: Abort>(rt: &A, alloc: Global, disk: MemoryDisk) -> DeskCounts
    requires { disk.calls ≡ [] }
{
    match Desk::start(alloc, JournalKeeper::new(alloc, disk), "day.journal") {
        Ok(desk) => {
            let counts = desk.counts();
            let _keeper = desk.finish();
            counts
        }
        Err(NotStarted { .. }) => panic!(rt; "the desk starts"),
    }
}

// How many drafts, books and orders a desk has of the image that the disk may leave.
fn kept_after<A: Abort>(rt: &A, alloc: Global, disk: &MemoryDisk) -> Result<u64, Fail> {
    let image = disk.image()?;
    let counts = found(rt, alloc, disk_of(alloc, &image, &[], None)?);
    Ok(u64::from(counts.drafts) + u64::from(counts.books) + u64::from(counts.orders))
}

// How many requests were answered with 201.
fn created(taken: &[u8]) -> u64 {
    taken
        .windows(13)
        .filter(|bytes| bytes.starts_with(b"HTTP/1.1 201 "))
        .count() as u64
}

// A day on an empty disk that stops in this call: how many requests were answered with 201, and how much is kept.
fn stopped<A: Abort>(rt: &A, alloc: Global, stop: Option<u64>) -> Result<(u64, u64), Fail> {
    let mut link = link_of(alloc, DAY)?;
    let disk = run(alloc, disk_of(alloc, b"", &[], stop)?, &mut link);
    let kept = kept_after(rt, alloc, &disk)?;
    Ok((created(link.taken()), kept))
}

#[test]
fn a_stop_in_any_call_leaves_what_was_answered_or_one_more(rt: HostRuntime) -> Result<(), Fail> {
    let alloc = rt.alloc();
    for stop in 0..START + 4 * PUT {
        let (answered, kept) = stopped(&rt, alloc, Some(stop))?;
        assert!(rt;
            answered <= kept && kept.saturating_sub(answered) <= 1,
            "{stop}: {answered} {kept}"
        );
    }
    assert_eq!(rt; stopped(&rt, alloc, None)?, (4, 4));
    Ok(())
}

#[test]
fn a_put_whose_last_sync_failed_is_made_again_and_there_once(rt: HostRuntime) -> Result<(), Fail> {
    let alloc = rt.alloc();
    let mut link = link_of(alloc, TWICE)?;
    let last_sync = START + PUT - 1;
    let disk = run(alloc, disk_of(alloc, b"", &[last_sync], None)?, &mut link);
    let mut answers = FAULT.to_vec(alloc)?;
    answers.extend_from_slice(CREATED)?;
    assert_eq!(rt; link.taken(), answers.as_slice());
    assert_eq!(rt; kept_after(&rt, alloc, &disk)?, 1);
    Ok(())
}
