//! One worker.
ghost use Rattle.std.specs.Prelude.{◌≡◌, [], IsSome, None, Some};
ghost use Rattle.order_desk.specs.Valid.{IsValid};
ghost use Rattle.serve_run.specs.Workers.{IsDone, IsReady, IsSameWorker};

use crate::links::work;
use crate::work_end::WorkEnd;
use answering::{Gate, Seat};
use keeper::Keeper;
use order_desk::Desk;
use pb_door::DoorPort;
use session::SessionEnd;
use std::alloc::Global;
use std::marker::Model;
use std::mem;
use std::sync::Wait;
use turn_book::{Pass, TurnBook};

/// Who serves the links of one port. Its pass is away only while it works.
pub(crate) struct Worker<Q: DoorPort, P: Keeper> {
    port: Q,
    pass: Option<Pass<Desk<P>>>,
    end: WorkEnd,
    faults: Vec<SessionEnd>,
}

impl<Q: DoorPort, P: Keeper> Model for Worker<Q, P> {
    ghost use Rattle.std.specs.Coded.{codes};
    ghost use Rattle.release.specs.ReleaseCode.{release_code};
    ghost use Rattle.serve_run.specs.Workers.{WorkerTold};

    ghost Value = { WorkerTold };

    ghost coded = { Prim.hlevel (codes, release_code) };

    ghost view = { λ w. record {
      port = Q.told w.port;
      faultless = Q.faultless w.port;
      pass = w.pass;
      end = w.end;
      faults = w.faults.items;
    } };
}

/// What a worker is made of, once its work has ended.
pub(crate) struct Parts<Q, P: Keeper> {
    pub(crate) port: Q,
    pub(crate) pass: Pass<Desk<P>>,
    pub(crate) end: WorkEnd,
    pub(crate) faults: Vec<SessionEnd>,
}

impl<Q: DoorPort, P: Keeper> Worker<Q, P> {
    pub(crate) fn new(alloc: Global, port: Q, pass: Pass<Desk<P>>) -> Worker<Q, P>
        ensures port { result.port ≡ Q.told port }
        ensures faultless { result.faultless ≡ Q.faultless port }
        ensures pass { result.pass ≡ Some pass }
        ensures faults { result.faults ≡ [] }
    {
        Worker {
            port,
            pass: Some(pass),
            end: WorkEnd::Memory,
            faults: Vec::new(alloc),
        }
    }

    /// Serves the links of its port, on the calls of its pass.
    pub(crate) fn work<R: Wait, G: Gate>(
        &mut self,
        rt: &R,
        alloc: Global,
        book: &TurnBook<Desk<P>>,
        gate: &G,
        share: u64,
    )
        requires valid { IsValid book.now.start.tables }
        requires ready { IsReady book.now share self.old }
        ensures done { IsDone book.now share self.new }
        ensures same { IsSameWorker self.old self.new }
    {
        // Only the clauses speak of it.
        let _share = share;
        match mem::replace(&mut self.pass, None) {
            Some(pass) => {
                let mut seat = Seat::new(rt, book, pass);
                self.end = work(alloc, &mut self.port, &mut seat, gate, &mut self.faults);
                nothing(mem::replace(&mut self.pass, Some(seat.into_pass())));
            }
            None => unreachable!(),
        }
    }

    pub(crate) fn into_parts(self) -> Parts<Q, P>
        requires { IsSome self.pass }
        ensures port { Q.told result.port ≡ self.port }
        ensures pass { self.pass ≡ Some result.pass }
        ensures end { result.end ≡ self.end }
        ensures faults { result.faults.items ≡ self.faults }
    {
        let Worker {
            port,
            pass,
            end,
            faults,
        } = self;
        match pass {
            Some(pass) => Parts {
                port,
                pass,
                end,
                faults,
            },
            None => unreachable!(),
        }
    }
}

// What stood where the pass is put back.
fn nothing<P: Keeper>(held: Option<Pass<Desk<P>>>)
    requires { held ≡ None }
{
    match held {
        Some(_pass) => unreachable!(),
        None => {}
    }
}
