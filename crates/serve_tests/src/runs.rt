//! Runs of two workers at one desk, over a door in memory.
ghost use Rattle.std.specs.Prelude.{◌≡◌, ◌<◌, IfOk, length};
ghost use Rattle.pb_door.specs.LinkTold.{IsUnwritten};
ghost use Rattle.pb_door.specs.MemoryPort.{AreUnwritten, exchange_told};

use crate::gates::{Holding, Meeting};
use crate::messages::{GONE, ORDER_OF_HALL1, ORDER_OF_HALL2, PLACED, RELEASE, WITHDRAWAL};
use answering::{Alone, Gate, NoGate};
use keeper::{MemoryKeeper, Rows};
use order_desk::{Desk, NotStarted};
use pb_door::MemoryDoor;
use pb_outside::{MemoryLink, MemorySink, MemorySource};
use serve_run::{ServeEnd, Served, WorkEnd, serve};
use session::session;
use std::alloc::Global;
use std::process::Abort;
use std::sync::Wait;
use std::test::Fail;
use std::thread::Threads;

// A link that gives this, and has room for what is written to it.
fn link_of(alloc: Global, stream: &[u8]) -> Result<MemoryLink, Fail>
    ensures { IfOk result (λ link. IsUnwritten (exchange_told link)) }
{
    let source = MemorySource::new(stream.to_vec(alloc)?, Vec::new(alloc), Vec::new(alloc));
    let sink = MemorySink::new(alloc, 10_000, Vec::new(alloc))?;
    Ok(MemoryLink::new(source, sink))
}

fn only_link(alloc: Global, stream: &[u8]) -> Result<Vec<MemoryLink>, Fail>
    ensures { IfOk result (λ links. AreUnwritten links.items) }
{
    let mut links = Vec::new(alloc);
    links.push(link_of(alloc, stream)?)?;
    Ok(links)
}

// A door of two ports, each with one link.
fn two_ports(alloc: Global, first: &[u8], second: &[u8]) -> Result<MemoryDoor, Fail> {
    let mut links = Vec::new(alloc);
    links.push(only_link(alloc, first)?)?;
    links.push(only_link(alloc, second)?)?;
    Ok(MemoryDoor::new(alloc, links, Vec::new(alloc), Vec::new(alloc)))
}

// The desk of an empty store.
pub(crate) fn started<A: Abort>(rt: &A, alloc: Global) -> Desk<MemoryKeeper> {
    let rows = Rows {
        form: 0,
        drafts: Vec::new(alloc),
        books: Vec::new(alloc),
        orders: Vec::new(alloc),
        withdrawn: Vec::new(alloc),
    };
    match Desk::start(alloc, MemoryKeeper::new(rows, Vec::new(alloc)), "s.db") {
        Ok(desk) => desk,
        Err(NotStarted { .. }) => panic!(rt; "the desk starts"),
    }
}

// A desk whose first book was released by a session of its own.
fn with_a_book<A: Abort>(rt: &A, alloc: Global, mut link: MemoryLink) -> Desk<MemoryKeeper> {
    let mut turns = Alone::new(started(rt, alloc), 100);
    let _end = session(alloc, &mut link, &mut turns, &NoGate);
    turns.into_desk()
}

// Lets two workers serve the links of the door, and tells how many orders the desk then has.
fn orders_kept<R: Abort + Threads + Wait + Sync, G: Gate + Sync>(
    rt: &R,
    alloc: Global,
    desk: Desk<MemoryKeeper>,
    door: &mut MemoryDoor,
    gate: &G,
) -> u32
    ensures { length door.new.back ≡ 2 }
{
    let Served {
        how,
        desk,
        faults: _,
    } = serve(rt, alloc, desk, 1_000, door, 0, 2, 2, gate);
    let orders = desk.counts().orders;
    let _keeper = desk.finish();
    match how {
        ServeEnd::Worked(WorkEnd::Over) => orders,
        ServeEnd::Worked(WorkEnd::Fault) => panic!(rt; "no port fails"),
        ServeEnd::Worked(WorkEnd::Memory) => panic!(rt; "there is memory"),
        ServeEnd::NoWorkers => panic!(rt; "there is memory for workers"),
        ServeEnd::Closed(_) => panic!(rt; "the door gives ports"),
    }
}

// What the last link of a port has taken.
fn taken<'a, A: Abort>(rt: &A, door: &'a MemoryDoor, port: u32) -> &'a [u8]
    requires { port < length door.now.back }
{
    match door.ended(port).last() {
        Some(link) => link.taken(),
        None => panic!(rt; "a link came back"),
    }
}

#[test]
fn two_orders_are_judged_together(rt: HostRuntime) -> Result<(), Fail> {
    let alloc = rt.alloc();
    let gate = Meeting::new();
    let mut door = two_ports(alloc, ORDER_OF_HALL1, ORDER_OF_HALL2)?;
    let desk = with_a_book(&rt, alloc, link_of(alloc, RELEASE)?);
    let orders = orders_kept(&rt, alloc, desk, &mut door, &gate);
    assert_eq!(rt; taken(&rt, &door, 0), PLACED);
    assert_eq!(rt; taken(&rt, &door, 1), PLACED);
    assert_eq!(rt; orders, 2);
    assert!(rt; gate.has_met());
    Ok(())
}

#[test]
fn an_order_whose_book_is_withdrawn_while_it_is_judged_is_answered_gone(
    rt: HostRuntime,
) -> Result<(), Fail> {
    let alloc = rt.alloc();
    let gate = Holding::new();
    let mut door = two_ports(alloc, ORDER_OF_HALL1, WITHDRAWAL)?;
    let desk = with_a_book(&rt, alloc, link_of(alloc, RELEASE)?);
    let orders = orders_kept(&rt, alloc, desk, &mut door, &gate);
    assert_eq!(rt; taken(&rt, &door, 0), GONE);
    assert_eq!(rt; orders, 0);
    assert!(rt; !gate.is_late());
    Ok(())
}
