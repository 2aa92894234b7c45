//! The run of many workers.
ghost use Rattle.std.specs.Prelude.{◌≡◌, ◌*◌, ◌/◌, ◌≤◌, ◌<◌, ℕ, [], true, All, length, map, slice_index_or, vec_capacity};
ghost use Rattle.order_desk.specs.Valid.{IsValid};
ghost use Rattle.turn_book.specs.Standing.{IsOpening};
ghost use Rattle.serve_run.specs.ServeRun.{IsOverOrMemory, IsServeRun};
ghost use Rattle.serve_run.specs.Workers.{AreEmpty, IsDone, IsPortsRun, IsPortsWorked, IsQuiet, IsReady, IsSameWorker, IsUnfailing, IsUnused};

use crate::end::{ServeEnd, Served};
use crate::joining::{Joined, join_workers};
use crate::rooms::Rooms;
use crate::seating::seat_workers;
use crate::work_end::WorkEnd;
use crate::worker::Worker;
use answering::Gate;
use keeper::Keeper;
use order_desk::Desk;
use pb_door::{Door, DoorPort};
use session::SessionEnd;
use std::alloc::{AllocError, Global};
use std::sync::Wait;
use std::thread;
use std::thread::Threads;
use turn_book::{Pass, TurnBook};

/// Listens, and lets as many workers serve links at one desk as are asked for, until each has served its share of them.
/// Together they make `steps` steps at most, and each the same part of these.
pub fn serve<R: Threads + Wait + Sync, D: Door, P: Keeper + Send, G: Gate + Sync>(
    rt: &R,
    alloc: Global,
    desk: Desk<P>,
    steps: u64,
    door: &mut D,
    port: u16,
    workers: u32,
    links: u32,
    gate: &G,
) -> Served<P>
    requires workers { 1 ≤ workers }
    requires steps { 1 ≤ steps }
    requires at_port { D.may_listen door.old port }
    ensures runs { let share = steps / workers in
        let faults = map (λ f. f.items) result.faults.items in
        IsServeRun result.how desk result.desk share links workers faults (D.told door.old) (D.told door.new) }
    ensures valid { IsValid result.desk.tables }
    ensures complete { D.faultless door.old ≡ true → IsOverOrMemory result.how }
{
    let share = steps_of_each(steps, workers);
    match door.listen(alloc, port, workers, links) {
        Ok(ports) => {
            let Run {
                how,
                desk,
                ports,
                faults,
            } = run_ports(rt, alloc, desk, steps, share, ports, gate);
            door.back(ports);
            Served { how, desk, faults }
        }
        Err(why) => {
            desk.valid_law();
            Served {
                how: ServeEnd::Closed(why),
                desk,
                faults: Vec::new(alloc),
            }
        }
    }
}

// How many steps each worker has.
fn steps_of_each(steps: u64, workers: u32) -> u64
    requires { 1 ≤ workers }
    ensures { result ≡ steps / workers }
{
    steps / u64::from(workers)
}

// What comes back of a run over some ports.
struct Run<Q: DoorPort, P: Keeper> {
    how: ServeEnd,
    desk: Desk<P>,
    ports: Vec<Q>,
    faults: Vec<Vec<SessionEnd>>,
}

// The run, once the ports are there.
fn run_ports<R: Threads + Wait + Sync, Q: DoorPort + Send, P: Keeper + Send, G: Gate + Sync>(
    rt: &R,
    alloc: Global,
    desk: Desk<P>,
    steps: u64,
    share: u64,
    ports: Vec<Q>,
    gate: &G,
) -> Run<Q, P>
    requires steps { 1 ≤ steps }
    requires share { share * length ports.items ≤ steps }
    requires unused { All (λ p. IsUnused (Q.told p)) ports.items }
    ensures runs { let faults = map (λ f. f.items) result.faults.items in
        let ports' = map Q.told result.ports.items in
        IsPortsRun result.how desk result.desk share (map Q.told ports.items) ports' faults }
    ensures valid { IsValid result.desk.tables }
    ensures quiet { All (λ p. Q.faultless p ≡ true) ports.items → IsQuiet result.how }
{
    match Rooms::new(alloc, ports.len()) {
        Ok(rooms) => run_in(rt, alloc, desk, steps, share, ports, rooms, gate),
        Err(AllocError) => not_run(alloc, desk, ports),
    }
}

// There was no memory for the workers.
fn not_run<Q: DoorPort, P: Keeper>(alloc: Global, desk: Desk<P>, ports: Vec<Q>) -> Run<Q, P>
    ensures how { result.how ≡ ServeEnd.NoWorkers }
    ensures desk { result.desk ≡ desk }
    ensures ports { result.ports.items ≡ ports.items }
    ensures faults { result.faults.items ≡ [] }
    ensures valid { IsValid result.desk.tables }
{
    desk.valid_law();
    Run {
        how: ServeEnd::NoWorkers,
        desk,
        ports,
        faults: Vec::new(alloc),
    }
}

// The run, once there is room for the workers.
fn run_in<R: Threads + Wait + Sync, Q: DoorPort + Send, P: Keeper + Send, G: Gate + Sync>(
    rt: &R,
    alloc: Global,
    desk: Desk<P>,
    steps: u64,
    share: u64,
    ports: Vec<Q>,
    rooms: Rooms<Q, P>,
    gate: &G,
) -> Run<Q, P>
    requires steps { 1 ≤ steps }
    requires share { share * length ports.items ≤ steps }
    requires unused { All (λ p. IsUnused (Q.told p)) ports.items }
    requires empty { AreEmpty rooms.workers.items rooms.ports.items rooms.faults.items }
    requires workers { length ports.items ≤ vec_capacity rooms.workers }
    requires ports { length ports.items ≤ vec_capacity rooms.ports }
    requires faults { length ports.items ≤ vec_capacity rooms.faults }
    ensures runs { let faults = map (λ f. f.items) result.faults.items in
        let ports' = map Q.told result.ports.items in
        IsPortsRun result.how desk result.desk share (map Q.told ports.items) ports' faults }
    ensures valid { IsValid result.desk.tables }
    ensures quiet { All (λ p. Q.faultless p ≡ true) ports.items → IsQuiet result.how }
{
    desk.valid_law();
    match TurnBook::new(alloc, desk, steps) {
        Ok((book, pass)) => run_workers(rt, alloc, book, pass, share, ports, rooms, gate),
        Err(desk) => {
            rooms.free();
            not_run(alloc, desk, ports)
        }
    }
}

// A worker for each port, from the first call to the last.
fn run_workers<R: Threads + Wait + Sync, Q: DoorPort + Send, P: Keeper + Send, G: Gate + Sync>(
    rt: &R,
    alloc: Global,
    book: TurnBook<Desk<P>>,
    pass: Pass<Desk<P>>,
    share: u64,
    ports: Vec<Q>,
    rooms: Rooms<Q, P>,
    gate: &G,
) -> Run<Q, P>
    requires valid { IsValid book.start.tables }
    requires opening { IsOpening book.start book.limit book pass }
    requires share { share * length ports.items ≤ book.limit }
    requires unused { All (λ p. IsUnused (Q.told p)) ports.items }
    requires empty { AreEmpty rooms.workers.items rooms.ports.items rooms.faults.items }
    requires workers { length ports.items ≤ vec_capacity rooms.workers }
    requires ports { length ports.items ≤ vec_capacity rooms.ports }
    requires faults { length ports.items ≤ vec_capacity rooms.faults }
    ensures runs { let faults = map (λ f. f.items) result.faults.items in
        let ports' = map Q.told result.ports.items in
        IsPortsRun result.how book.start result.desk share (map Q.told ports.items) ports' faults }
    ensures valid { IsValid result.desk.tables }
    ensures quiet { All (λ p. Q.faultless p ≡ true) ports.items → IsQuiet result.how }
{
    let Rooms {
        workers: room,
        ports: back,
        faults,
    } = rooms;
    let (pass, workers) = seat_workers(alloc, &book, pass, ports, share, room);
    let workers = worked(rt, alloc, &book, gate, share, workers);
    let Joined {
        pass,
        ports,
        faults,
        end,
    } = join_workers(&book, pass, workers, share, back, faults);
    Run {
        how: ServeEnd::Worked(end),
        desk: book.close(pass),
        ports,
        faults,
    }
}

// All workers at once, each in a thread of its own where the system has one for it.
#[tactic(auto, using(std::proofs::lemmas::List::take_at))]
fn worked<R: Threads + Wait + Sync, Q: DoorPort + Send, P: Keeper + Send, G: Gate + Sync>(
    rt: &R,
    alloc: Global,
    book: &TurnBook<Desk<P>>,
    gate: &G,
    share: u64,
    workers: Vec<Worker<Q, P>>,
) -> Vec<Worker<Q, P>>
    requires valid { IsValid book.now.start.tables }
    requires ready { All (IsReady book.now share) workers.items }
    ensures len { length result.items ≡ length workers.items }
    ensures done { All (IsDone book.now share) result.items }
    ensures same { (i : ℕ) (d : _) → i < length workers.items
        → IsSameWorker (slice_index_or workers.items i d) (slice_index_or result.items i d) }
{
    let mut workers = workers;
    work_all(rt, alloc, book, gate, share, workers.as_mut_slice());
    workers
}

fn work_all<R: Threads + Wait + Sync, Q: DoorPort + Send, P: Keeper + Send, G: Gate + Sync>(
    rt: &R,
    alloc: Global,
    book: &TurnBook<Desk<P>>,
    gate: &G,
    share: u64,
    workers: &mut [Worker<Q, P>],
)
    requires valid { IsValid book.now.start.tables }
    requires ready { All (IsReady book.now share) workers.old }
    ensures len { length workers.new ≡ length workers.old }
    ensures done { All (IsDone book.now share) workers.new }
    ensures same { (i : ℕ) (d : _) → i < length workers.old
        → IsSameWorker (slice_index_or workers.old i d) (slice_index_or workers.new i d) }
{
    let threads = workers.len().max(1);
    thread::for_each_mut(
        rt,
        workers,
        threads,
        &|_, worker: &mut Worker<Q, P>|
            requires ready { IsReady book.now share worker.old }
            requires valid { IsValid book.now.start.tables }
            ensures done { IsDone book.entry.now share worker.new }
            ensures same { IsSameWorker worker.old worker.new }
        { worker.work(rt, alloc, book, gate, share) },
    );
}
