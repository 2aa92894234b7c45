//! A pass for each port.
ghost use Rattle.std.specs.Prelude.{◌≡◌, ◌+◌, ◌*◌, ◌≤◌, [], All, length, map, vec_capacity};
ghost use Rattle.serve_run.specs.Workers.{IsFresh, IsReady, IsUnused};

use crate::rooms::put;
use crate::worker::Worker;
use keeper::Keeper;
use order_desk::Desk;
use pb_door::DoorPort;
use std::alloc::Global;
use std::collections::VecDeque;
use turn_book::{Pass, TurnBook};

/// A worker for each port, with `share` calls that are cut off the pass. The pass keeps the others.
pub(crate) fn seat_workers<Q: DoorPort, P: Keeper>(
    alloc: Global,
    book: &TurnBook<Desk<P>>,
    pass: Pass<Desk<P>>,
    ports: Vec<Q>,
    share: u64,
    room: Vec<Worker<Q, P>>,
) -> (Pass<Desk<P>>, Vec<Worker<Q, P>>)
    requires pass { IsFresh book.now pass.left pass }
    requires share { share * length ports.items ≤ pass.left }
    requires ports { All (λ p. IsUnused (Q.told p)) ports.items }
    requires none { room.items ≡ [] }
    requires room { length ports.items ≤ vec_capacity room }
    ensures pass { IsFresh book.now result.0.left result.0 }
    ensures left { result.0.left + share * length result.1.items ≡ pass.left }
    ensures ready { All (IsReady book.now share) result.1.items }
    ensures ports { map (λ w. w.port) result.1.items ≡ map Q.told ports.items }
    ensures faultless { map (λ w. w.faultless) result.1.items ≡ map Q.faultless ports.items }
{
    let mut pass = pass;
    let mut workers = room;
    let mut rest = VecDeque::from_vec(ports);
    while let Some(port) = rest.pop_front() {
        let (kept, own) = book.split(pass, share);
        pass = kept;
        put(&mut workers, Worker::new(alloc, port, own));
    }
    rest.destroy_empty();
    (pass, workers)
}
