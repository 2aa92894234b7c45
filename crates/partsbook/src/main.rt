//! The program: it does what its words ask, mostly of a book that it reads from standard input.
#![tactic(auto)]

mod named;
mod watching;

ghost use Rattle.std.specs.Prelude.{◌≡◌};
ghost use Rattle.std.specs.Process.{exit_status};
ghost use Rattle.book_commands.specs.Numbers.{status_number};

use crate::named::store_of;
use crate::watching::watch_of;
use answering::NoGate;
use commands::{Begun, Channels, RunEnd, RunLog, RunStatus, World, begin_given, run_service};
use file_store::{Counted, FileStore, close};
use pb_outside::{StreamSink, StreamSource, SystemFiles};
use std::process::ExitCode;
use std::{env, io};
use tcp_door::TcpDoor;

fn main(rt: HostRuntime) -> ExitCode {
    let alloc = rt.alloc();
    let words = given_words(&rt);
    let watch = watch_of(&rt, alloc, &words);
    let channels = Channels {
        source: StreamSource::new(rt.reader()),
        sink: StreamSink::new(io::writer(&rt)),
        files: SystemFiles::new(&rt),
        door: TcpDoor::new(alloc, &rt, &watch),
        log: RunLog::new(alloc),
    };
    let world = World {
        keeper: Counted {
            store: store_of(rt, alloc, &words),
            orders: watch.orders(),
        },
        channels,
    };
    let RunEnd { status, world } = match begin_given(&rt, alloc, words, world, &NoGate) {
        Begun::Ended(end) => end,
        Begun::Awaited(service, left) => run_service(&rt, alloc, &service, left, &NoGate),
    };
    closed(rt, status, world.keeper.store)
}

// The status, as the system takes it.
fn exit_code(status: RunStatus) -> ExitCode
    ensures { exit_status result ≡ status_number status }
{
    ExitCode::from(status.number())
}

// The words after the program's name.
fn given_words(rt: &HostRuntime) -> io::Result<Vec<String>> {
    let mut words = env::args(rt)?;
    let _program = words.next();
    Ok(words.collect(rt.alloc())?)
}

// The status of a run, whose store is closed. What a store that can't be closed has in its log is there for the next run, so
// the status stays what it is, and standard error says what is left.
fn closed(rt: HostRuntime, status: RunStatus, store: FileStore) -> ExitCode
    ensures { exit_status result ≡ status_number status }
{
    if !close(store) {
        let _told = rt.eprintln(
            "the store's log stays beside it: keep both, the next run takes both",
        );
    }
    exit_code(status)
}
