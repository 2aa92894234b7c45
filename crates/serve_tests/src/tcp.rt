//! A run of one worker over TCP, from this machine to itself.
use crate::runs::started;
use answering::NoGate;
use pb_door::Door;
use serve_run::{ServeEnd, Served, WorkEnd, serve};
use std::alloc::Global;
use std::io::{Read, Write};
use std::net::{Ipv4Addr, Net, SocketAddrV4, TcpListener, TcpStream};
use std::process::Abort;
use std::sync::Wait;
use std::test::Fail;
use std::thread::Threads;
use std::time::{Clock, Duration};
use std::{io, thread};
use tcp_door::{SystemWatch, TcpDoor};

const ASKED: &[u8] =
    b"GET /books/1 HTTP/1.1\r\nHost: localhost\r\nX-Caller: ANNA\r\nConnection: close\r\n\r\n";

const NO_BOOK: &[u8] =
    b"HTTP/1.1 404 Not Found\r\nContent-Type: text/plain\r\nContent-Length: 13\r\nConnection: close\r\n\r\nno such book\n";

// How often a client tries to reach a door that may not be there yet.
const TRIES: u32 = 1_000;

// A port of this machine at which nobody listens.
fn free_port<R: Net<Listener = TcpListener, Stream = TcpStream>>(rt: &R) -> io::Result<u16> {
    let listener = TcpListener::bind(rt, SocketAddrV4::new(Ipv4Addr::LOCALHOST, 0))?;
    Ok(listener.local_addr()?.port())
}

// Serves one link of the door at this port of the machine, and answers whether it was served.
fn serves_one<R: Abort + Threads + Wait + Sync, D: Door>(
    rt: &R,
    alloc: Global,
    door: &mut D,
    port: u16,
) -> bool
    requires { D.may_listen door.old port }
{
    let desk = started(rt, alloc);
    let Served {
        how,
        desk,
        faults: _,
    } = serve(rt, alloc, desk, 10, door, port, 1, 1, &NoGate);
    let _keeper = desk.finish();
    matches!(how, ServeEnd::Worked(WorkEnd::Over))
}

fn reached<R: Clock + Net<Listener = TcpListener, Stream = TcpStream>>(
    rt: &R,
    port: u16,
) -> io::Result<TcpStream> {
    let address = SocketAddrV4::new(Ipv4Addr::LOCALHOST, port);
    for _ in 0..TRIES {
        if let Ok(client) = TcpStream::connect(rt, address) {
            return Ok(client);
        }
        thread::sleep(rt, Duration::from_millis(10));
    }
    TcpStream::connect(rt, address)
}

// What a client gets that asks once.
fn answer_at<R: Clock + Net<Listener = TcpListener, Stream = TcpStream>>(
    rt: &R,
    alloc: Global,
    port: u16,
) -> io::Result<Vec<u8>> {
    let mut client = reached(rt, port)?;
    client.write_all(ASKED)?;
    let mut answer = Vec::new(alloc);
    client.read_to_end(&mut answer)?;
    Ok(answer)
}

#[test]
fn a_request_is_answered_at_the_port_that_is_asked_for(rt: HostRuntime) -> Result<(), Fail> {
    let alloc = rt.alloc();
    let port = free_port(&rt)?;
    let watch = SystemWatch::new(&rt, None, 0, 0);
    let mut door = TcpDoor::new(alloc, &rt, &watch);
    let (rt, door) = (&rt, &mut door);
    let (served, answer) = thread::join(
        rt,
        move || serves_one(rt, alloc, door, port),
        move || answer_at(rt, alloc, port),
    );
    assert!(rt; served);
    assert_eq!(rt; answer?.as_slice(), NO_BOOK);
    Ok(())
}
