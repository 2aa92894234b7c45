//! Ports that share one TCP listener.
ghost use Rattle.std.specs.Prelude.{◌≡◌, false, true};
ghost use Rattle.pb_door.specs.PortTold.{gives, new_port};
ghost use Rattle.pb_door.specs.DoorTold.{has_failed};
ghost use Rattle.tcp_door.specs.Untold.{untold};

use crate::accepting::accept;
use crate::link::TcpLink;
use crate::watch::Watch;
use pb_door::DoorPort;
use pb_outside::{FaultCount, OutError, Sink, Source};
use std::alloc::Global;
use std::io;
use std::marker::Model;
use std::net::{SocketAddr, TcpListener, TcpStream};
use std::snapshot::Snapshot;

/// One of the ports of a TCP door. Each accepts connections from the listener that all of them share, so a connection
/// comes to whichever port asks first. It has no more once its watch is stopped. Want of descriptors or of memory in the
/// system passes: it tries again then. Each other error of the listener is a fault.
#[derive(Drop)]
pub struct TcpPort<W: Watch + Copy + Drop> {
    listener: TcpListener,
    watch: W,
    number: u32,
    left: u64,
    given: Vec<Snapshot<TcpLink<W>>>,
    ended: Vec<Snapshot<TcpLink<W>>>,
    out: bool,
    over: bool,
    faults: FaultCount,
}

impl<W: Watch + Copy + Drop> Model for TcpPort<W> {
    ghost use Rattle.std.specs.Prelude.{◌≡◌, ◌<◌, true, map, vec_len, vec_capacity};
    ghost use Rattle.pb_door.specs.PortTold.{PortTold};
    ghost use Rattle.tcp_door.specs.Untold.{untold};

    ghost Value = { PortTold };

    ghost view = { λ p. record {
      number = p.number;
      left = p.left;
      given = map (λ link. untold link.value.read_faults link.value.write_faults) p.given.items;
      ended = map (λ link. untold link.value.read_faults link.value.write_faults) p.ended.items;
      out = p.out;
      over = p.over;
      faults = p.faults;
    } };

    ghost invariant = { λ p. p.out ≡ true → vec_len p.ended < vec_capacity p.ended };
}

impl<W: Watch + Copy + Drop> TcpPort<W> {
    /// The port of this number, which gives so many connections of the listener at most.
    pub(crate) fn new(
        alloc: Global,
        listener: TcpListener,
        watch: W,
        number: u32,
        left: u64,
    ) -> TcpPort<W>
        ensures { result ≡ new_port number left }
    {
        TcpPort {
            listener,
            watch,
            number,
            left,
            given: Vec::new(alloc),
            ended: Vec::new(alloc),
            out: false,
            over: false,
            faults: FaultCount::new(),
        }
    }

    /// Where it listens. The system has chosen the port where the door was told to listen at 0.
    pub fn address(&self) -> io::Result<SocketAddr> {
        self.listener.local_addr()
    }

    /// Whether a call has failed so far.
    pub(crate) fn has_failed(&self) -> bool
        ensures { result ≡ has_failed self.now }
    {
        self.faults.faults() > 0
    }
}

impl<W: Watch + Copy + Drop + Send> DoorPort for TcpPort<W> {
    type L = TcpLink<W>;

    ghost told = { λ p. p };

    ghost faultless = { λ _. false };

    // Unless its watch may stop it, a listener always has another.
    ghost exhausted = { λ _. W.may_stop ≡ true };

    fn next(&mut self) -> Result<Option<TcpLink<W>>, OutError> {
        if self.left == 0 {
            self.over = true;
            return Ok(None);
        }
        self.ended.reserve(1)?;
        self.given.reserve(1)?;
        match accept(&self.listener, &self.watch) {
            Ok(Some(stream)) => {
                let link = TcpLink::new(stream, self.watch);
                if self.given.push(Snapshot::of(&link)).is_err() {
                    unreachable!();
                }
                self.watch.note_given();
                self.left -= 1;
                self.out = true;
                Ok(Some(link))
            }
            Ok(None) => {
                self.over = true;
                Ok(None)
            }
            Err(_) => self.faults.fail(),
        }
    }

    fn done(&mut self, link: TcpLink<W>) {
        if self.ended.push(Snapshot::of(&link)).is_err() {
            unreachable!();
        }
        self.out = false;
        self.watch
            .note_ended(link.read_faults() > 0 || link.write_faults() > 0);
        link.close();
    }

    fn faults(&self) -> u64 {
        self.faults.faults()
    }
}
