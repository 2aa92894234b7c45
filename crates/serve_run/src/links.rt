//! The links of one port, served one after the other.
ghost use Rattle.std.specs.Prelude.{◌≡◌, ◌≢◌, ◌⊎◌, [], ◌∷◌, ◌++◌, false, true, OnOk, IfErr};
ghost use Rattle.answering.specs.LaterHand.{IsLaterHand};
ghost use Rattle.session.specs.Dealing.{HasDealt};
ghost use Rattle.session.specs.Session.{told};
ghost use Rattle.serve_run.specs.Work.{KeepsEnd, Works, WorksOn};

use crate::work_end::WorkEnd;
use answering::{Gate, Turns};
use http_api::Routes;
use pb_base::Memory;
use pb_door::DoorPort;
use pb_outside::{Link, OutError};
use session::{SessionEnd, session, session_by};
use std::alloc::Global;

/// Serves the links of a port one after the other, and hands each back, until the port gives no more or fails. Where a
/// link failed, how its session ended is added to `faults`, if there is memory for it.
pub fn work<Q: DoorPort, T: Turns, G: Gate>(
    alloc: Global,
    port: &mut Q,
    turns: &mut T,
    gate: &G,
    faults: &mut Vec<SessionEnd>,
) -> WorkEnd
    requires { (Q.told port.old).out ≡ false }
    ensures works { let before = T.hand turns.old in
        let port' = Q.told port.new in
        Works result before (Q.told port.old) port' faults.old.items faults.new.items (T.hand turns.new) }
    // Whatever the links tell.
    ensures steps { IsLaterHand (T.hand turns.old) (T.hand turns.new) }
    ensures faultless { Q.faultless port.old ≡ true → Q.faultless port.new ≡ true }
    ensures unfailing { Q.faultless port.old ≡ true → result ≢ WorkEnd.Fault }
{
    match Routes::new(alloc) {
        Ok(routes) => serve_links(alloc, Some(&routes), port, turns, gate, faults),
        Err(Memory) => serve_links(alloc, None, port, turns, gate, faults),
    }
}

// The same, by paths that were read before, if there was memory for them.
fn serve_links<Q: DoorPort, T: Turns, G: Gate>(
    alloc: Global,
    routes: Option<&Routes>,
    port: &mut Q,
    turns: &mut T,
    gate: &G,
    faults: &mut Vec<SessionEnd>,
) -> WorkEnd
    requires { (Q.told port.old).out ≡ false }
    ensures works { let before = T.hand turns.old in
        let port' = Q.told port.new in
        Works result before (Q.told port.old) port' faults.old.items faults.new.items (T.hand turns.new) }
    ensures steps { IsLaterHand (T.hand turns.old) (T.hand turns.new) }
    ensures faultless { Q.faultless port.old ≡ true → Q.faultless port.new ≡ true }
    ensures unfailing { Q.faultless port.old ≡ true → result ≢ WorkEnd.Fault }
{
    // No port has so many links.
    for _ in 0..u64::MAX {
        if let Err(end) = serve_next(alloc, routes, port, turns, gate, faults) {
            return end;
        }
    }
    WorkEnd::Memory
}

// Serves the next link and hands it back, or says why there is none.
fn serve_next<Q: DoorPort, T: Turns, G: Gate>(
    alloc: Global,
    routes: Option<&Routes>,
    port: &mut Q,
    turns: &mut T,
    gate: &G,
    faults: &mut Vec<SessionEnd>,
) -> Result<(), WorkEnd>
    requires { (Q.told port.old).out ≡ false }
    ensures none_out { (Q.told port.new).out ≡ false }
    ensures goes_on { let before = T.hand turns.old in
        let after = T.hand turns.new in
        let port' = Q.told port.new in
        OnOk result (WorksOn before (Q.told port.old) faults.old.items after port' faults.new.items) }
    ensures ended { let before = T.hand turns.old in
        let after = T.hand turns.new in
        IfErr result (λ end.
        Works end before (Q.told port.old) (Q.told port.new) faults.old.items faults.new.items after) }
    ensures steps { IsLaterHand (T.hand turns.old) (T.hand turns.new) }
    ensures faultless { Q.faultless port.old ≡ true → Q.faultless port.new ≡ true }
    ensures unfailing { Q.faultless port.old ≡ true → IfErr result (λ end. end ≢ WorkEnd.Fault) }
{
    match port.next() {
        Ok(Some(mut link)) => {
            let end = serve_link(alloc, routes, &mut link, turns, gate);
            port.done(link);
            keep(faults, end);
            Ok(())
        }
        Ok(None) => Err(WorkEnd::Over),
        Err(OutError::Failed) => Err(WorkEnd::Fault),
        Err(OutError::Memory) => Err(WorkEnd::Memory),
    }
}

// Serves one link. Where there was no memory for the paths its session reads them, and want of memory ends that session alone.
fn serve_link<L: Link, T: Turns, G: Gate>(
    alloc: Global,
    routes: Option<&Routes>,
    link: &mut L,
    turns: &mut T,
    gate: &G,
) -> SessionEnd
    ensures dealt { let before = told (L.input link.old) (L.output link.old) in
        let after = told (L.input link.new) (L.output link.new) in
        HasDealt result (T.hand turns.old) before after (T.hand turns.new) }
    ensures steps { IsLaterHand (T.hand turns.old) (T.hand turns.new) }
    ensures same_names { L.names link.new ≡ L.names link.old }
{
    match routes {
        Some(routes) => session_by(alloc, routes, link, turns, gate),
        None => session(alloc, link, turns, gate),
    }
}

// Keeps how a session ended in which the link failed, if there is memory for it.
fn keep(faults: &mut Vec<SessionEnd>, end: SessionEnd)
    ensures { KeepsEnd end faults.old.items faults.new.items }
{
    match end {
        SessionEnd::ReadFault(_) => add(faults, end),
        SessionEnd::WriteFault(_) => add(faults, end),
        SessionEnd::Done => {}
        SessionEnd::Broken => {}
        SessionEnd::Memory => {}
    }
}

fn add(faults: &mut Vec<SessionEnd>, end: SessionEnd)
    ensures { (faults.new.items ≡ faults.old.items) ⊎ (faults.new.items ≡ faults.old.items ++ end ∷ []) }
{
    let _added = faults.push(end);
}
