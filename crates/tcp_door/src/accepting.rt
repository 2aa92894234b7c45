//! Waiting for the next connection.
ghost use Rattle.std.specs.Prelude.{◌≡◌, ⊤, true, IfOk, MatchOption};

use crate::watch::Watch;
use pb_outside::OutError;
use std::io::{Error, ErrorKind};
use std::net::{TcpListener, TcpStream};
use std::os::fd::OwnedFd;
use std::thread;
use std::time::Duration;

// How long one accept waits at most, and how long a port waits that could not take a connection, in milliseconds.
const LONGEST_ACCEPT: u64 = 1_000;

const PAUSE: u64 = 500;

// The numbers of errors of the system that pass by themselves: no memory, too many descriptors of the system, or of this
// process, no buffers.
const PASSING: [i32; 4] = [12, 23, 24, 105];

// Those that concern the connection that came, and not the listener: refused by a firewall, broken.
const OF_ONE: [i32; 2] = [1, 71];

// What an error of an accept says.
enum Refusal {
    // Nobody came, or who came has gone.
    Nobody,
    // A connection can't be taken now.
    Passing,
    // The listener is of no use any more.
    Lasting,
}

/// Bounds how long one accept waits, so that a port that waits looks at its watch. Where that can't be set, a port looks
/// only when a connection comes.
pub(crate) fn bound_accept(listener: &TcpListener) {
    // The bound is one of the socket, which a stream can set through a descriptor of its own.
    if let Ok(other) = listener.try_clone() {
        let socket = TcpStream::from(OwnedFd::from(other));
        let _bound = socket.set_read_timeout(Some(Duration::from_millis(LONGEST_ACCEPT)));
    }
}

/// The next connection, or None where the watch is stopped.
pub(crate) fn accept<W: Watch>(
    listener: &TcpListener,
    watch: &W,
) -> Result<Option<TcpStream>, OutError>
    ensures { IfOk result (λ found. MatchOption found (W.may_stop ≡ true) (λ _. ⊤)) }
{
    for _ in 0..u64::MAX {
        if watch.is_stopped() {
            return Ok(None);
        }
        match listener.accept() {
            Ok((stream, _)) => return Ok(Some(stream)),
            Err(error) => match meaning_of(&error) {
                Refusal::Nobody => {}
                Refusal::Passing => {
                    watch.note_refused();
                    thread::sleep(watch, Duration::from_millis(PAUSE));
                }
                Refusal::Lasting => break,
            },
        }
    }
    Err(OutError::Failed)
}

fn meaning_of(error: &Error) -> Refusal {
    if matches!(
        error.kind(),
        ErrorKind::WouldBlock | ErrorKind::ConnectionAborted
    ) {
        return Refusal::Nobody;
    }
    match error.raw_os_error() {
        Some(number) if OF_ONE.contains(&number) => Refusal::Nobody,
        Some(number) if PASSING.contains(&number) => Refusal::Passing,
        _ => Refusal::Lasting,
    }
}
