//! The run of a desk whose connections come from a door.
ghost use Rattle.std.specs.Prelude.{◌≡◌, [], ◌∷◌, ◌++◌, IfOk, OnOk, map};
ghost use Rattle.commands.specs.Outside.{KeeperTold, channels_seen, seen};
ghost use Rattle.commands.specs.Serves.{NotesLinks, RunsService, ServesDoor, count_notes, counts_reply, counts_text, door_fault_reply, end_reply, link_notes, port_notes};
ghost use Rattle.book_commands.specs.declared.log.Note.TheVariants.{Count};
ghost use Rattle.serve_run.specs.declared.end.ServeEnd.{ServeEnd};

use crate::desk::tell_start;
use crate::run_end::RunEnd;
use crate::world::{Channels, World};
use answering::Gate;
use book_commands::{Note, Object, RunLog, RunReply, RunStatus, tell_made};
use command_words::Service;
use desk_run::MOST_STEPS;
use keeper::Keeper;
use order_desk::{Desk, DeskCounts, ManyHands, NotStarted};
use pb_base::{Memory, Text, put_number};
use pb_door::Door;
use pb_outside::{Files, OutError, Sink, Source};
use serve_run::{ServeEnd, Served, WorkEnd, serve};
use session::SessionEnd;
use std::alloc::Global;
use std::sync::Wait;
use std::thread::Threads;

/// Starts the desk whose rows the keeper has in the service's store, has the workers serve the links of the door, and tells how
/// that ended. The workers judge the kept orders too. The source and the files are not touched.
pub fn run_service<
    R: Threads + Wait + Sync,
    S: Source,
    K: Sink,
    F: Files,
    P: Keeper + Send,
    D: Door,
    G: Gate + Sync,
>(
    rt: &R,
    alloc: Global,
    service: &Service,
    world: World<S, K, F, P, D>,
    gate: &G,
) -> RunEnd<World<S, K, F, P, D>>
    requires named { P.may_begin world.keeper service.now.store }
    requires at_port { D.may_listen world.channels.door service.now.port }
    ensures { let sees = seen S.input K.output F.told P.told P.failures D.told D.faultless in
        RunsService service.now (sees world) (sees result.world) result.status }
{
    let World {
        keeper,
        mut channels,
    } = world;
    let hands = ManyHands {
        rt,
        workers: service.workers(),
    };
    match Desk::start_by(alloc, &hands, keeper, service.store()) {
        Ok(desk) => serve_door(rt, alloc, service, desk, channels, gate),
        Err(NotStarted { why, keeper }) => {
            let status = tell_start(alloc, &why, &mut channels.sink, &mut channels.log);
            RunEnd {
                status,
                world: World { keeper, channels },
            }
        }
    }
}

// Serves the door by a desk, tells how that ended, and finishes the desk. Whatever its keeper told before.
fn serve_door<
    R: Threads + Wait + Sync,
    S: Source,
    K: Sink,
    F: Files,
    P: Keeper + Send,
    D: Door,
    G: Gate + Sync,
>(
    rt: &R,
    alloc: Global,
    service: &Service,
    desk: Desk<P>,
    mut channels: Channels<S, K, F, D>,
    gate: &G,
) -> RunEnd<World<S, K, F, P, D>>
    requires { D.may_listen channels.door service.now.port }
    ensures { (kept : KeeperTold) →
        let sees = seen S.input K.output F.told P.told P.failures D.told D.faultless in
        let before = channels_seen S.input K.output F.told D.told D.faultless kept channels in
        (how : ServeEnd) × ServesDoor how desk service.now before (sees result.world) result.status }
{
    let first = channels.door.faults();
    let Served { how, desk, faults } = serve(
        rt,
        alloc,
        desk,
        MOST_STEPS,
        &mut channels.door,
        service.port(),
        service.workers(),
        service.links(),
        gate,
    );
    note_links(alloc, &faults, &mut channels.log);
    let reply = end_reply(alloc, how, desk.counts(), first, channels.door.faults());
    let status = tell_made(reply, &mut channels.sink, &mut channels.log);
    RunEnd {
        status,
        world: World {
            keeper: desk.finish(),
            channels,
        },
    }
}

// Notes the counts of the links that failed, if there is memory for all of them.
fn note_links(alloc: Global, faults: &[Vec<SessionEnd>], log: &mut RunLog)
    ensures { NotesLinks (map (λ f. f.items) faults.now) log.old log.new }
{
    if let Ok(notes) = notes_of(alloc, faults) {
        let _noted = log.append(notes);
    }
}

fn notes_of(alloc: Global, faults: &[Vec<SessionEnd>]) -> Result<Vec<Note>, Memory>
    ensures { IfOk result (λ notes. notes.items ≡ link_notes (map (λ f. f.items) faults.now)) }
{
    let mut notes = Vec::new(alloc);
    for ends in faults {
        put_notes(&mut notes, ends)?;
    }
    Ok(notes)
}

fn put_notes(notes: &mut Vec<Note>, ends: &[SessionEnd]) -> Result<(), Memory>
    ensures { OnOk result (notes.new.items ≡ notes.old.items ++ port_notes ends.now) }
{
    for end in ends {
        put_note(notes, *end)?;
    }
    Ok(())
}

fn put_note(notes: &mut Vec<Note>, end: SessionEnd) -> Result<(), Memory>
    ensures { OnOk result (notes.new.items ≡ notes.old.items ++ count_notes end) }
{
    match end {
        SessionEnd::ReadFault(fault) => {
            put_count(notes, Object::Source, fault.before, fault.after)
        }
        SessionEnd::WriteFault(fault) => put_count(notes, Object::Sink, fault.before, fault.after),
        SessionEnd::Done => Ok(()),
        SessionEnd::Broken => Ok(()),
        SessionEnd::Memory => Ok(()),
    }
}

fn put_count(notes: &mut Vec<Note>, which: Object, before: u64, after: u64) -> Result<(), Memory>
    ensures { let note = Count which before after in
        OnOk result (notes.new.items ≡ notes.old.items ++ note ∷ []) }
{
    notes.push(Note::Count {
        which,
        before,
        after,
    })?;
    Ok(())
}

// What is told of the end, with what the desk keeps then and the door's counts of faults.
fn end_reply(
    alloc: Global,
    how: ServeEnd,
    kept: DeskCounts,
    first: u64,
    last: u64,
) -> Result<RunReply, Memory>
    ensures { IfOk result (λ reply. reply
        ≡ end_reply how kept.drafts kept.books kept.orders first last) }
{
    match how {
        ServeEnd::Closed(OutError::Failed) => door_fault_reply(alloc, first, last),
        ServeEnd::Closed(OutError::Memory) => Err(Memory),
        ServeEnd::NoWorkers => Err(Memory),
        ServeEnd::Worked(WorkEnd::Over) => counts_reply(alloc, kept),
        ServeEnd::Worked(WorkEnd::Fault) => door_fault_reply(alloc, first, last),
        ServeEnd::Worked(WorkEnd::Memory) => Err(Memory),
    }
}

fn door_fault_reply(alloc: Global, first: u64, last: u64) -> Result<RunReply, Memory>
    ensures { IfOk result (λ reply. reply ≡ door_fault_reply first last) }
{
    let mut text = Text::new(alloc);
    text.put(b"door fault\n")?;
    let note = Note::Count {
        which: Object::Door,
        before: first,
        after: last,
    };
    RunReply::noted(alloc, text.into_body(), RunStatus::DoorFault, note)
}

fn counts_reply(alloc: Global, kept: DeskCounts) -> Result<RunReply, Memory>
    ensures { IfOk result (λ reply. reply ≡ counts_reply kept.drafts kept.books kept.orders) }
{
    let mut text = Text::new(alloc);
    put_counts(&mut text, kept)?;
    Ok(RunReply::plain(alloc, text.into_body(), RunStatus::Done))
}

// `drafts D books B orders O`.
fn put_counts(text: &mut Text, kept: DeskCounts) -> Result<(), Memory>
    ensures { OnOk result (text.new ≡ text.old ++ counts_text kept.drafts kept.books kept.orders) }
{
    text.put(b"drafts")?;
    put_number(text, u64::from(kept.drafts))?;
    text.put(b" books")?;
    put_number(text, u64::from(kept.books))?;
    text.put(b" orders")?;
    put_number(text, u64::from(kept.orders))?;
    text.put(b"\n")
}
