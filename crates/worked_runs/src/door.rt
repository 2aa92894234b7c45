//! The door of a run, as a case says it.
ghost use Rattle.std.specs.Prelude.{All, IfOk, OnOk, map};
ghost use Rattle.pb_door.specs.LinkTold.{IsUnwritten};
ghost use Rattle.pb_door.specs.MemoryPort.{AreUnwritten, exchange_told};

use crate::case::{Case, put_numbers};
use crate::escape::put_shown;
use pb_base::{Memory, Text};
use pb_door::MemoryDoor;
use pb_outside::{MemoryLink, MemorySink, MemorySource};
use std::alloc::Global;

// A door has no more workers.
const MOST_PORTS: u32 = 16;

// Room for whatever is written to a link.
const AMPLE_ROOM: usize = 100_000;

/// A link that a port gives: what is read of it, and which of its reads and of its writes fail.
#[derive(Drop)]
pub struct SaidLink<'a> {
    pub port: u64,
    pub read_fails: &'a str,
    pub write_fails: &'a str,
    pub text: Text,
}

/// Which calls for the next link fail at a port.
#[derive(Drop)]
pub struct PortFails<'a> {
    pub port: u64,
    pub fails: &'a str,
}

/// The door of a run of the case.
pub fn door_of(alloc: Global, case: &Case<'_>) -> Result<MemoryDoor, Memory> {
    let links = links_of(alloc, &case.links)?;
    let fails = case.door_fails.to_vec(alloc)?;
    let port_fails = fails_of(alloc, &case.port_fails)?;
    Ok(MemoryDoor::new(alloc, links, fails, port_fails))
}

// The links of each port.
fn links_of(alloc: Global, links: &[SaidLink<'_>]) -> Result<Vec<Vec<MemoryLink>>, Memory>
    ensures { IfOk result (λ ports. All AreUnwritten (map (λ links. links.items) ports.items)) }
{
    let mut ports = Vec::new(alloc);
    for port in 0..MOST_PORTS {
        ports.push(links_at(alloc, links, u64::from(port))?)?;
    }
    Ok(ports)
}

fn links_at(alloc: Global, links: &[SaidLink<'_>], port: u64) -> Result<Vec<MemoryLink>, Memory>
    ensures { IfOk result (λ links. AreUnwritten links.items) }
{
    let mut given = Vec::new(alloc);
    for link in links {
        if link.port == port {
            let one = link_of(alloc, link)?;
            given.push(one)?;
        }
    }
    Ok(given)
}

fn link_of(alloc: Global, link: &SaidLink<'_>) -> Result<MemoryLink, Memory>
    ensures { IfOk result (λ link. IsUnwritten (exchange_told link)) }
{
    let source = source_of(alloc, link)?;
    let fails = numbers_of(alloc, link.write_fails)?;
    let sink = MemorySink::new(alloc, AMPLE_ROOM, fails)?;
    Ok(MemoryLink::new(source, sink))
}

fn source_of(alloc: Global, link: &SaidLink<'_>) -> Result<MemorySource, Memory> {
    let fails = numbers_of(alloc, link.read_fails)?;
    let bytes = link.text.bytes().to_vec(alloc)?;
    Ok(MemorySource::new(bytes, Vec::new(alloc), fails))
}

fn numbers_of(alloc: Global, words: &str) -> Result<Vec<u64>, Memory> {
    let mut numbers = Vec::new(alloc);
    put_numbers(&mut numbers, words)?;
    Ok(numbers)
}

// The failing calls of each port.
fn fails_of(alloc: Global, said: &[PortFails<'_>]) -> Result<Vec<Vec<u64>>, Memory> {
    let mut ports = Vec::new(alloc);
    for port in 0..MOST_PORTS {
        ports.push(fails_at(alloc, said, u64::from(port))?)?;
    }
    Ok(ports)
}

fn fails_at(alloc: Global, said: &[PortFails<'_>], port: u64) -> Result<Vec<u64>, Memory> {
    let mut fails = Vec::new(alloc);
    for one in said {
        if one.port == port {
            put_numbers(&mut fails, one.fails)?;
        }
    }
    Ok(fails)
}

/// Puts what the links took behind a text, port by port, where the ports came back.
pub fn put_links(text: &mut Text, door: &MemoryDoor) -> Result<(), Memory> {
    for port in 0..MOST_PORTS {
        if (port as usize) < door.came_back() {
            put_links_of(text, port, door.ended(port))?;
        }
    }
    Ok(())
}

fn put_links_of(text: &mut Text, port: u32, links: &[MemoryLink]) -> Result<(), Memory> {
    for link in links {
        put_link(text, port, link)?;
    }
    Ok(())
}

fn put_link(text: &mut Text, port: u32, link: &MemoryLink) -> Result<(), Memory> {
    text.put(b"link ")?;
    text.put_number(u64::from(port))?;
    text.put(b"\n")?;
    put_shown(text, link.taken())
}
