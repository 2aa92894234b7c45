//! A door over a TCP listener.
ghost use Rattle.std.specs.Prelude.{◌≡◌, ◌+◌, ◌≤◌, ◌<◌, [], ◌∷◌, ◌++◌, IfOk, map, vec_len, vec_capacity};
ghost use Rattle.std.specs.List.{list_any};
ghost use Rattle.pb_door.specs.DoorTold.{AreLent, has_failed, takes_back};
ghost use Rattle.pb_door.specs.PortTold.{new_ports};

use crate::accepting::bound_accept;
use crate::port::TcpPort;
use crate::watch::Watch;
use pb_door::{Door, DoorPort, share_of};
use pb_outside::{FaultCount, OutError};
use std::alloc::Global;
use std::marker::Model;
use std::net::{Ipv4Addr, Net, SocketAddrV4, TcpListener, TcpStream};

/// Listens for TCP connections from this machine, and no others, until its watch is stopped. Each error of the system that
/// doesn't pass is a fault.
#[derive(Drop)]
pub struct TcpDoor<'a, R: Net, W: Watch> {
    net: &'a R,
    watch: &'a W,
    lent: u32,
    back: Vec<TcpPort<&'a W>>,
    faults: FaultCount,
}

impl<'a, R: Net, W: Watch> Model for TcpDoor<'a, R, W> {
    ghost use Rattle.pb_door.specs.DoorTold.{DoorTold};

    ghost Value = { DoorTold };

    ghost view = { λ d. record { lent = d.lent; back = d.back.items; faults = d.faults } };
}

impl<'a, R: Net, W: Watch> TcpDoor<'a, R, W> {
    /// No fault so far.
    pub fn new(alloc: Global, net: &'a R, watch: &'a W) -> TcpDoor<'a, R, W>
        ensures { result ≡ record { lent = 0; back = []; faults = 0 } }
    {
        TcpDoor {
            net,
            watch,
            lent: 0,
            back: Vec::new(alloc),
            faults: FaultCount::new(),
        }
    }
}

// A port for each of so many workers, all of one listener.
fn open_ports<'a, R: Net<Listener = TcpListener, Stream = TcpStream>, W: Watch>(
    alloc: Global,
    net: &R,
    watch: &'a W,
    port: u16,
    workers: u32,
    links: u32,
) -> Result<Vec<TcpPort<&'a W>>, OutError>
    requires { 1 ≤ workers }
    ensures { IfOk result (λ ports. ports.items ≡ new_ports links workers) }
{
    let mut ports = Vec::new(alloc);
    let listener = listen_at(net, port)?;
    bound_accept(&listener);
    for number in 0..workers {
        let port = TcpPort::new(
            alloc,
            shared(&listener)?,
            watch,
            number,
            share_of(links, workers, number),
        );
        ports.push(port)?;
    }
    Ok(ports)
}

fn listen_at<R: Net<Listener = TcpListener, Stream = TcpStream>>(
    net: &R,
    port: u16,
) -> Result<TcpListener, OutError> {
    match TcpListener::bind(net, SocketAddrV4::new(Ipv4Addr::LOCALHOST, port)) {
        Ok(listener) => Ok(listener),
        Err(_) => Err(OutError::Failed),
    }
}

// The listener once more, for one port.
fn shared(listener: &TcpListener) -> Result<TcpListener, OutError> {
    match listener.try_clone() {
        Ok(listener) => Ok(listener),
        Err(_) => Err(OutError::Failed),
    }
}

fn have_failed<W: Watch + Copy + Drop>(ports: &[TcpPort<W>]) -> bool
    ensures { result ≡ list_any has_failed ports.now }
{
    ports.iter().any(|port| port.has_failed())
}

impl<'a, R: Net<Listener = TcpListener, Stream = TcpStream> + Sync, W: Watch + Sync> Door
    for TcpDoor<'a, R, W> {
    ghost use Rattle.std.specs.Prelude.{⊤, false};

    type Port = TcpPort<&'a W>;

    ghost told = { λ d. d };

    ghost faultless = { λ _. false };

    ghost may_listen = { λ _ _. ⊤ };

    fn listen(
        &mut self,
        alloc: Global,
        port: u16,
        workers: u32,
        links: u32,
    ) -> Result<Vec<TcpPort<&'a W>>, OutError> {
        match open_ports(alloc, self.net, self.watch, port, workers, links) {
            Ok(ports) => {
                self.watch.note_listening(port);
                self.lent = workers;
                Ok(ports)
            }
            Err(OutError::Failed) => self.faults.fail(),
            Err(OutError::Memory) => Err(OutError::Memory),
        }
    }

    fn back(&mut self, ports: Vec<TcpPort<&'a W>>)
        requires { AreLent self.old (map (λ p. p) ports.items) }
        ensures back { self.new ≡ takes_back (map (λ p. p) ports.entry.items) self.old }
        ensures faultless { false ≡ false }
    {
        if have_failed(&ports) {
            self.faults.raise();
        }
        self.lent = 0;
        self.back = ports;
    }

    fn faults(&self) -> u64 {
        self.faults.faults()
    }
}
