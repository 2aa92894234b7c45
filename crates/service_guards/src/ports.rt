//! What no worker of a service does, and what is told of no port.
ghost use Rattle.std.specs.Prelude.{◌≡◌, ◌/◌, ◌≤◌, false, true};
ghost use Rattle.std.specs.List.{AllByRecursion};
ghost use Rattle.order_desk.specs.Valid.{IsValid};
ghost use Rattle.serve_run.specs.declared.end.ServeEnd.TheVariants as ServeEnd;
ghost use Rattle.serve_run.specs.declared.work_end.WorkEnd.{WorkEnd as End};
ghost use Rattle.serve_run.specs.declared.work_end.WorkEnd.TheVariants as WorkEnd;
ghost use Rattle.service_guards.specs.Parts.{IsWithinParts};

use answering::{Gate, Turns};
use keeper::Keeper;
use order_desk::Desk;
use pb_door::{Door, DoorPort};
use serve_run::{Served, WorkEnd, serve, work};
use session::SessionEnd;
use std::alloc::Global;
use std::sync::Wait;
use std::thread::Threads;

/// A port fails, and its worker tells that it gave all its links.
pub fn no_port_that_failed_ends_work_as_over<Q: DoorPort, T: Turns, G: Gate>(
    alloc: Global,
    port: &mut Q,
    turns: &mut T,
    gate: &G,
    faults: &mut Vec<SessionEnd>,
) -> WorkEnd
    requires { (Q.told port.old).out ≡ false }
    ensures { result ≡ WorkEnd.Over → (Q.told port.new).over ≡ true }
{
    work(alloc, port, turns, gate, faults)
}

/// One of many ports fails, and the service tells that all are over.
pub fn no_failed_port_is_told_as_over<
    R: Threads + Wait + Sync,
    D: Door,
    P: Keeper + Send,
    G: Gate + Sync,
>(
    rt: &R,
    alloc: Global,
    desk: Desk<P>,
    steps: u64,
    door: &mut D,
    port: u16,
    workers: u32,
    links: u32,
    gate: &G,
) -> Served<P>
    requires workers { 1 ≤ workers }
    requires steps { 1 ≤ steps }
    requires at_port { D.may_listen door.old port }
    ensures { result.how ≡ ServeEnd.Worked WorkEnd.Over
        → AllByRecursion (λ p. p.over ≡ true) (D.told door.new).back }
{
    serve(rt, alloc, desk, steps, door, port, workers, links, gate)
}

/// A service listens at a port that nobody named. This one says so by what it requires, not by what it ensures: the callee needs
/// leave for no other port than the one that it is handed.
pub fn no_other_port_is_listened_at<
    R: Threads + Wait + Sync,
    D: Door,
    P: Keeper + Send,
    G: Gate + Sync,
>(
    rt: &R,
    alloc: Global,
    desk: Desk<P>,
    steps: u64,
    door: &mut D,
    port: u16,
    workers: u32,
    links: u32,
    gate: &G,
) -> Served<P>
    requires workers { 1 ≤ workers }
    requires steps { 1 ≤ steps }
    requires at_port { D.may_listen door.old port }
    ensures { IsValid result.desk.tables }
{
    serve(rt, alloc, desk, steps, door, port, workers, links, gate)
}

/// One worker uses up the steps of the others, who then answer that there are none left.
pub fn no_worker_makes_a_step_more_than_its_part<
    R: Threads + Wait + Sync,
    D: Door,
    P: Keeper + Send,
    G: Gate + Sync,
>(
    rt: &R,
    alloc: Global,
    desk: Desk<P>,
    steps: u64,
    door: &mut D,
    port: u16,
    workers: u32,
    links: u32,
    gate: &G,
) -> Served<P>
    requires workers { 1 ≤ workers }
    requires steps { 1 ≤ steps }
    requires at_port { D.may_listen door.old port }
    ensures { (end : End) → result.how ≡ ServeEnd.Worked end
        → IsWithinParts desk result.desk (steps / workers) (D.told door.new).back }
{
    serve(rt, alloc, desk, steps, door, port, workers, links, gate)
}
