//! Room that is made before the workers begin.
ghost use Rattle.std.specs.Prelude.{◌≡◌, ◌+◌, ◌≤◌, ◌<◌, [], ◌∷◌, ◌++◌, IfOk, vec_len, vec_capacity};
ghost use Rattle.serve_run.specs.Workers.{AreEmpty};

use crate::worker::Worker;
use keeper::Keeper;
use pb_door::DoorPort;
use session::SessionEnd;
use std::alloc::{AllocError, Global};

/// Room for workers, for their ports when they come back, and for the ends that they kept.
pub(crate) struct Rooms<Q: DoorPort, P: Keeper> {
    pub(crate) workers: Vec<Worker<Q, P>>,
    pub(crate) ports: Vec<Q>,
    pub(crate) faults: Vec<Vec<SessionEnd>>,
}

impl<Q: DoorPort, P: Keeper> Rooms<Q, P> {
    /// Room for so many of each.
    pub(crate) fn new(alloc: Global, count: usize) -> Result<Rooms<Q, P>, AllocError>
        ensures empty { IfOk result (λ r. AreEmpty r.workers.items r.ports.items r.faults.items) }
        ensures workers { IfOk result (λ r. count ≤ vec_capacity r.workers) }
        ensures ports { IfOk result (λ r. count ≤ vec_capacity r.ports) }
        ensures faults { IfOk result (λ r. count ≤ vec_capacity r.faults) }
    {
        let faults = Vec::with_capacity(alloc, count)?;
        match Vec::with_capacity(alloc, count) {
            Ok(workers) => match Vec::with_capacity(alloc, count) {
                Ok(ports) => Ok(Rooms {
                    workers,
                    ports,
                    faults,
                }),
                Err(AllocError) => {
                    workers.destroy_empty();
                    Err(AllocError)
                }
            },
            Err(AllocError) => Err(AllocError),
        }
    }

    /// Frees room that nothing came into.
    pub(crate) fn free(self)
        requires { AreEmpty self.workers.items self.ports.items self.faults.items }
    {
        let Rooms {
            workers,
            ports,
            faults: _,
        } = self;
        workers.destroy_empty();
        ports.destroy_empty();
    }
}

/// Appends an element, for which there is room.
pub(crate) fn put<T>(items: &mut Vec<T>, item: T)
    requires { vec_len items.old < vec_capacity items.old }
    ensures items { items.new.items ≡ items.old.items ++ item ∷ [] }
    ensures len { vec_len items.new ≡ vec_len items.old + 1 }
    ensures capacity { vec_capacity items.old ≤ vec_capacity items.new }
{
    match items.push(item) {
        Ok(()) => {}
        Err(_refused) => unreachable!(),
    }
}
