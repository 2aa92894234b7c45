//! The passes of all workers, joined again.
ghost use Rattle.std.specs.Prelude.{◌≡◌, ℕ, ◌+◌, ◌*◌, ◌≤◌, ◌<◌, [], ◌∷◌, ◌++◌, All, length, map, vec_len, vec_capacity};
ghost use Rattle.serve_run.specs.Workers.{IsDone, IsFresh, IsJoined, IsUnfailing, worse};

use crate::rooms::put;
use crate::work_end::WorkEnd;
use crate::worker::{Parts, Worker};
use keeper::Keeper;
use order_desk::Desk;
use pb_door::DoorPort;
use session::SessionEnd;
use std::collections::VecDeque;
use turn_book::{Pass, TurnBook};

/// What comes back of the workers: one pass with all their calls, and their ports in order.
pub(crate) struct Joined<Q: DoorPort, P: Keeper> {
    pub(crate) pass: Pass<Desk<P>>,
    pub(crate) ports: Vec<Q>,
    pub(crate) faults: Vec<Vec<SessionEnd>>,
    pub(crate) end: WorkEnd,
}

/// Joins the passes of the workers to this one, which has made no call. There is room for what comes back.
pub(crate) fn join_workers<Q: DoorPort, P: Keeper>(
    book: &TurnBook<Desk<P>>,
    pass: Pass<Desk<P>>,
    workers: Vec<Worker<Q, P>>,
    share: u64,
    ports: Vec<Q>,
    faults: Vec<Vec<SessionEnd>>,
) -> Joined<Q, P>
    requires pass { IsFresh book.now pass.left pass }
    requires done { All (IsDone book.now share) workers.items }
    requires none { (ports.items ≡ []) × (faults.items ≡ []) }
    requires room { (length workers.items ≤ vec_capacity ports) × (length workers.items ≤ vec_capacity faults) }
    ensures joined { let limit = pass.left + share * length workers.items in
        let faults = map (λ f. f.items) result.faults.items in
        IsJoined book.now share limit result.pass (map Q.told result.ports.items) faults result.end 0 }
    ensures ports { map Q.told result.ports.items ≡ map (λ w. w.port) workers.items }
    ensures quiet { All (λ w. IsUnfailing w.end) workers.items → IsUnfailing result.end }
{
    let mut joined = Joined {
        pass,
        ports,
        faults,
        end: WorkEnd::Over,
    };
    let mut rest = VecDeque::from_vec(workers);
    while let Some(worker) = rest.pop_front() {
        joined = with_worker(book, joined, worker, share);
    }
    rest.destroy_empty();
    joined
}

// Takes in one worker more.
fn with_worker<Q: DoorPort, P: Keeper>(
    book: &TurnBook<Desk<P>>,
    joined: Joined<Q, P>,
    worker: Worker<Q, P>,
    share: u64,
) -> Joined<Q, P>
    requires table { joined.pass.table ≡ book.now.table }
    requires done { IsDone book.now share worker }
    requires ports { vec_len joined.ports < vec_capacity joined.ports }
    requires faults { vec_len joined.faults < vec_capacity joined.faults }
    ensures joined { let faults = map (λ f. f.items) joined.faults.items in
        let faults' = map (λ f. f.items) result.faults.items in
        let ports = map Q.told joined.ports.items in
        let ports' = map Q.told result.ports.items in
        (limit rest : ℕ) → IsJoined book.now share limit joined.pass ports faults joined.end (rest + 1)
        → IsJoined book.now share limit result.pass ports' faults' result.end rest }
    ensures ports { map Q.told result.ports.items ≡ map Q.told joined.ports.items ++ worker.port ∷ [] }
    ensures end { result.end ≡ worse joined.end worker.end }
    ensures len_ports { vec_len result.ports ≡ vec_len joined.ports + 1 }
    ensures len_faults { vec_len result.faults ≡ vec_len joined.faults + 1 }
    ensures room_ports { vec_capacity joined.ports ≤ vec_capacity result.ports }
    ensures room_faults { vec_capacity joined.faults ≤ vec_capacity result.faults }
{
    let _share = share;
    let Joined {
        pass,
        mut ports,
        mut faults,
        end,
    } = joined;
    let Parts {
        port,
        pass: own,
        end: its_end,
        faults: its_faults,
    } = worker.into_parts();
    put(&mut ports, port);
    put(&mut faults, its_faults);
    Joined {
        pass: book.join(pass, own),
        ports,
        faults,
        end: worse(end, its_end),
    }
}

// The end that tells least of the ports.
fn worse(end: WorkEnd, other: WorkEnd) -> WorkEnd
    ensures { result ≡ worse end other }
{
    match end {
        WorkEnd::Over => other,
        WorkEnd::Fault => match other {
            WorkEnd::Memory => WorkEnd::Memory,
            WorkEnd::Over => WorkEnd::Fault,
            WorkEnd::Fault => WorkEnd::Fault,
        },
        WorkEnd::Memory => WorkEnd::Memory,
    }
}
