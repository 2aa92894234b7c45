//! Connections over TCP, from this machine to itself.
ghost use Rattle.std.specs.Prelude.{◌≡◌, false, IfOk};

use pb_door::{Door, DoorPort};
use pb_outside::{OutError, Sink, Source};
use std::alloc::Global;
use std::io::{Read, Write};
use std::net::{Net, Shutdown, SocketAddr, TcpListener, TcpStream};
use std::sync::atomic::{AtomicU64, Ordering};
use std::test::Fail;
use std::time::{Clock, Duration};
use std::{io, thread};
use tcp_door::{SystemWatch, TcpDoor, TcpLink, TcpPort, Watch};

// How many pieces a long request has: 2 MiB in all.
const PIECES: u32 = 256;

// The port of a door for one worker, which listens at this port of the machine.
fn only_port<'a, R: Net<Listener = TcpListener, Stream = TcpStream> + Sync, W: Watch + Sync>(
    alloc: Global,
    door: &mut TcpDoor<'a, R, W>,
    number: u16,
    links: u32,
) -> Result<TcpPort<&'a W>, OutError>
    ensures { IfOk result (λ port. port.out ≡ false) }
{
    let mut ports = door.listen(alloc, number, 1, links)?;
    match ports.pop() {
        Some(port) => Ok(port),
        None => Err(OutError::Memory),
    }
}

// Reads what a link gives, to its end.
fn read_all<W: Watch + Drop>(alloc: Global, link: &mut TcpLink<W>) -> Result<Vec<u8>, OutError> {
    let mut bytes = Vec::new(alloc);
    for _ in 0..100_000 {
        if link.read(&mut bytes, 8_192)? == 0 {
            break;
        }
    }
    Ok(bytes)
}

#[test]
fn links_come_and_go(rt: HostRuntime) -> Result<(), Fail> {
    let alloc = rt.alloc();
    let watch = SystemWatch::new(&rt, None, 0, 0);
    let mut door = TcpDoor::new(alloc, &rt, &watch);
    let mut port = only_port(alloc, &mut door, 0, 2)?;
    let address = port.address()?;
    assert!(rt; address.ip().is_loopback());
    let mut client = TcpStream::connect(&rt, address)?;
    client.write_all(b"ping")?;
    client.shutdown(Shutdown::Write)?;
    match port.next()? {
        Some(mut link) => {
            assert_eq!(rt; read_all(alloc, &mut link)?.as_slice(), b"ping".as_slice());
            link.write(b"pong")?;
            port.done(link);
        }
        None => panic!(rt; "a connection waits"),
    }
    let mut answer = Vec::new(alloc);
    client.read_to_end(&mut answer)?;
    assert_eq!(rt; answer.as_slice(), b"pong".as_slice());
    let second = TcpStream::connect(&rt, address)?;
    second.shutdown(Shutdown::Write)?;
    match port.next()? {
        Some(link) => port.done(link),
        None => panic!(rt; "a second connection waits"),
    }
    assert!(rt; port.next()?.is_none());
    assert_eq!(rt; port.faults(), 0);
    Ok(())
}

#[test]
fn a_door_listens_at_the_port_that_is_asked_for(rt: HostRuntime) -> Result<(), Fail> {
    let alloc = rt.alloc();
    let watch = SystemWatch::new(&rt, None, 0, 0);
    let mut door = TcpDoor::new(alloc, &rt, &watch);
    let number = only_port(alloc, &mut door, 0, 1)?.address()?.port();
    let port = only_port(alloc, &mut door, number, 1)?;
    assert_eq!(rt; port.address()?.port(), number);
    Ok(())
}

// Sends a long request and reads the answer only then.
fn send_all<R: Net<Listener = TcpListener, Stream = TcpStream>>(
    rt: &R,
    alloc: Global,
    address: SocketAddr,
) -> io::Result<Vec<u8>> {
    let mut client = TcpStream::connect(rt, address)?;
    let piece = [0; 8_192];
    for _ in 0..PIECES {
        client.write_all(&piece)?;
    }
    let mut answer = Vec::new(alloc);
    client.read_to_end(&mut answer)?;
    Ok(answer)
}

// Refuses the next link when it has read a few bytes of it.
fn refuse_early<W: Watch + Copy + Drop + Send>(
    alloc: Global,
    port: &mut TcpPort<W>,
) -> Result<(), OutError>
    requires { port.old.out ≡ false }
{
    match port.next()? {
        Some(mut link) => {
            let mut bytes = Vec::new(alloc);
            let read = link.read(&mut bytes, 100);
            let written = link.write(b"too large");
            port.done(link);
            read?;
            written
        }
        None => Err(OutError::Memory),
    }
}

#[test]
fn an_early_refusal_reaches_a_client_that_sends_on(rt: HostRuntime) -> Result<(), Fail> {
    let alloc = rt.alloc();
    let watch = SystemWatch::new(&rt, None, 0, 0);
    let mut door = TcpDoor::new(alloc, &rt, &watch);
    let mut port = only_port(alloc, &mut door, 0, 1)?;
    let address = port.address()?;
    let (rt, port) = (&rt, &mut port);
    let (refused, answer) = thread::join(
        rt,
        move || refuse_early(alloc, port),
        move || send_all(rt, alloc, address),
    );
    refused?;
    assert_eq!(rt; answer?.as_slice(), b"too large".as_slice());
    Ok(())
}

// Is stopped once it was asked so often.
#[derive(Drop)]
struct StopsAt<'a, R: Clock> {
    clock: &'a R,
    asked: AtomicU64,
    most: u64,
    answered: AtomicU64,
}

impl<R: Clock> Clock for StopsAt<'_, R> {
    fn monotonic(&self) -> io::Result<Duration> {
        self.clock.monotonic()
    }

    fn since_1970(&self) -> io::Result<Duration> {
        self.clock.since_1970()
    }
}

impl<R: Clock> Watch for StopsAt<'_, R> {
    ghost use Rattle.std.specs.Prelude.{true};

    ghost may_stop = { true };

    fn is_stopped(&self) -> bool {
        self.asked.fetch_add(1, Ordering::SeqCst) >= self.most
    }

    fn note_listening(&self, _: u16) {}

    fn note_given(&self) {}

    fn note_answered(&self) {
        self.answered.fetch_add(1, Ordering::SeqCst);
    }

    fn note_ended(&self, _: bool) {}

    fn note_refused(&self) {}
}

#[test]
fn a_port_that_waits_is_over_once_it_is_stopped(rt: HostRuntime) -> Result<(), Fail> {
    let alloc = rt.alloc();
    let watch = StopsAt {
        clock: &rt,
        asked: AtomicU64::new(0),
        most: 3,
        answered: AtomicU64::new(0),
    };
    let mut door = TcpDoor::new(alloc, &rt, &watch);
    let mut port = only_port(alloc, &mut door, 0, 9)?;
    let client = TcpStream::connect(&rt, port.address()?)?;
    client.shutdown(Shutdown::Write)?;
    match port.next()? {
        Some(mut link) => {
            link.write(b"wait")?;
            link.write_both(b"po", b"ng")?;
            port.done(link);
        }
        None => panic!(rt; "a connection waits"),
    }
    // One piece alone is no response.
    assert_eq!(rt; watch.answered.load(Ordering::SeqCst), 1);
    // Nobody comes any more, and some are left to be given.
    assert!(rt; port.next()?.is_none());
    assert_eq!(rt; port.faults(), 0);
    Ok(())
}

#[test]
fn a_file_stops_a_door(rt: HostRuntime) -> Result<(), Fail> {
    let alloc = rt.alloc();
    let there = SystemWatch::new(&rt, Some(String::from_str(alloc, "/")?), 0, 0);
    assert!(rt; there.is_stopped());
    let absent = SystemWatch::new(&rt, Some(String::from_str(alloc, "/no such file")?), 0, 0);
    assert!(rt; !absent.is_stopped());
    Ok(())
}

// Whether the link refuses one of so many responses.
fn refuses<W: Watch + Drop>(link: &mut TcpLink<W>) -> bool {
    for _ in 0..1_000 {
        if link
            .write_both(b"HTTP/1.1 200 OK\r\n\r\n", &[0; 8_192])
            .is_err()
        {
            return true;
        }
    }
    false
}

#[test]
fn a_response_to_a_caller_that_is_gone_is_a_fault(rt: HostRuntime) -> Result<(), Fail> {
    let alloc = rt.alloc();
    let watch = SystemWatch::new(&rt, None, 0, 0);
    let mut door = TcpDoor::new(alloc, &rt, &watch);
    let mut port = only_port(alloc, &mut door, 0, 1)?;
    let client = TcpStream::connect(&rt, port.address()?)?;
    match port.next()? {
        Some(mut link) => {
            drop(client);
            let refused = refuses(&mut link);
            let faults = link.write_faults();
            port.done(link);
            assert!(rt; refused);
            assert_eq!(rt; faults, 1);
        }
        None => panic!(rt; "a connection waits"),
    }
    Ok(())
}
