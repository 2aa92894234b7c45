//! The run of a desk over the source and the sink of a run.
ghost use Rattle.std.specs.Prelude.{◌≡◌, IfOk};
ghost use Rattle.book_commands.specs.Tells.{outputs};
ghost use Rattle.commands.specs.DeskEnds.{EndsDesk, EndsSession, EndsStart, RunsDesk, start_reply};
ghost use Rattle.commands.specs.Outside.{seen};

use crate::run_end::RunEnd;
use crate::world::World;
use answering::Gate;
use book_commands::{
    Object, RunLog, RunReply, RunStatus, note_write_fault, tell_made, tell_want_of_memory,
};
use command_words::FileName;
use desk_run::{DeskEnd, DeskRun, run_desk};
use keeper::Keeper;
use order_desk::StartFault;
use pb_base::{Fail, Memory};
use pb_door::Door;
use pb_outside::{Files, Sink, Source};
use session::SessionEnd;
use std::alloc::Global;

/// Runs a desk over the rows that the keeper has in this store, serves the source and the sink as one link, and tells how that
/// ended. Files are not touched.
pub fn run_store<S: Source, K: Sink, F: Files, P: Keeper, D: Door, G: Gate>(
    alloc: Global,
    store: &FileName,
    world: World<S, K, F, P, D>,
    gate: &G,
) -> RunEnd<World<S, K, F, P, D>>
    requires named { P.may_begin world.keeper store.now }
    ensures { let sees = seen S.input K.output F.told P.told P.failures D.told D.faultless in
        RunsDesk (sees world) (sees result.world) result.status }
{
    let World {
        keeper,
        mut channels,
    } = world;
    let DeskRun { how, keeper } = run_desk(
        alloc,
        store.as_str(),
        &mut channels.source,
        &mut channels.sink,
        keeper,
        gate,
    );
    let status = tell_end(alloc, &how, &mut channels.sink, &mut channels.log);
    RunEnd {
        status,
        world: World { keeper, channels },
    }
}

// Tells how a desk's run ended, and gives the status. Where the session ended without a fault of its link nothing is told.
fn tell_end<K: Sink>(alloc: Global, how: &DeskEnd, sink: &mut K, log: &mut RunLog) -> RunStatus
    ensures { let before = outputs (K.output sink.old) log.old in
        let after = outputs (K.output sink.new) log.new in
        EndsDesk how.now before after result }
{
    match how {
        DeskEnd::Served(end) => tell_session(alloc, *end, sink, log),
        DeskEnd::NotStarted(why) => tell_start(alloc, why, sink, log),
    }
}

/// Tells why a desk was not started, and gives the status.
pub fn tell_start<K: Sink>(
    alloc: Global,
    why: &Fail<StartFault>,
    sink: &mut K,
    log: &mut RunLog,
) -> RunStatus
    ensures { let before = outputs (K.output sink.old) log.old in
        let after = outputs (K.output sink.new) log.new in
        EndsStart why.now before after result }
{
    match why {
        Fail::Refused(fault) => tell_made(start_reply(alloc, *fault), sink, log),
        Fail::Memory => tell_want_of_memory(sink, log),
    }
}

fn tell_session<K: Sink>(
    alloc: Global,
    end: SessionEnd,
    sink: &mut K,
    log: &mut RunLog,
) -> RunStatus
    ensures { let before = outputs (K.output sink.old) log.old in
        let after = outputs (K.output sink.new) log.new in
        EndsSession end before after result }
{
    match end {
        SessionEnd::Done => RunStatus::Done,
        SessionEnd::Broken => RunStatus::Faulty,
        SessionEnd::ReadFault(fault) => {
            tell_made(
                RunReply::read_fault(alloc, Object::Source, fault.before, fault.after),
                sink,
                log,
            )
        }
        SessionEnd::WriteFault(fault) => note_write_fault(fault.before, fault.after, log),
        SessionEnd::Memory => RunStatus::WantOfMemory,
    }
}

fn start_reply(alloc: Global, fault: StartFault) -> Result<RunReply, Memory>
    ensures { IfOk result (λ reply. reply ≡ start_reply fault) }
{
    match fault {
        StartFault::Store { before, after } => RunReply::store_fault(alloc, before, after),
        StartFault::BadRow { table, place } => RunReply::bad_row(alloc, table, place),
    }
}
