//! The orders that a desk keeps, judged by the book that a file is, before it is released.
ghost use Rattle.std.specs.Prelude.{◌<◌, IfOk};
ghost use Rattle.commands.specs.Impacted.{RepliesToImpact, RunsImpact};
ghost use Rattle.commands.specs.Outside.{KeeperTold, channels_seen, keeps, seen};
ghost use Rattle.commands.specs.Rejudged.{Judges, JudgesAgain};

use crate::desk::tell_start;
use crate::run_end::RunEnd;
use crate::stock::stock_of;
use crate::world::{Channels, World};
use book_commands::{BookFile, RunReply, RunStatus, read_book_file, tell_made};
use command_words::Impact;
use keeper::Keeper;
use order_again::{impact_text, rejudge};
use order_desk::{Desk, ManyHands, NotStarted};
use pb_base::Memory;
use pb_door::Door;
use pb_outside::{Files, Sink, Source};
use release::Released;
use std::alloc::Global;
use std::thread::Threads;

/// Certifies the book that the file is. If it can be released, starts the desk whose rows the keeper has in the store, judges its
/// orders by the book, and tells what they come to; else tells what keeps the book back, and the keeper is not touched. Nothing is
/// released. The source and the door are not touched.
pub fn run_impact<R: Threads + Sync, S: Source, K: Sink, F: Files, P: Keeper, D: Door>(
    rt: &R,
    alloc: Global,
    asked: &Impact,
    world: World<S, K, F, P, D>,
) -> RunEnd<World<S, K, F, P, D>>
    requires named { P.may_begin world.keeper asked.now.store }
    ensures { let sees = seen S.input K.output F.told P.told P.failures D.told D.faultless in
        RunsImpact asked.now (sees world) (sees result.world) result.status }
{
    let World {
        keeper,
        mut channels,
    } = world;
    match read_book_file(alloc, asked.file(), &mut channels.files) {
        BookFile::Released(book) => judge_by(rt, alloc, asked, &book, keeper, channels),
        BookFile::KeptBack(reply) => {
            let status = tell_made(reply, &mut channels.sink, &mut channels.log);
            RunEnd {
                status,
                world: World { keeper, channels },
            }
        }
    }
}

// Starts the desk and judges its orders by the book.
fn judge_by<R: Threads + Sync, S: Source, K: Sink, F: Files, P: Keeper, D: Door>(
    rt: &R,
    alloc: Global,
    asked: &Impact,
    to: &Released,
    keeper: P,
    mut channels: Channels<S, K, F, D>,
) -> RunEnd<World<S, K, F, P, D>>
    requires named { P.may_begin keeper asked.now.store }
    ensures { let sees = seen S.input K.output F.told P.told P.failures D.told D.faultless in
        let kept = keeps (P.told keeper) (P.failures keeper) in
        let before = channels_seen S.input K.output F.told D.told D.faultless kept channels in
        Judges (RepliesToImpact to.now.book) before (sees result.world) result.status }
{
    let hands = ManyHands {
        rt,
        workers: asked.workers(),
    };
    match Desk::start_by(alloc, &hands, keeper, asked.store()) {
        Ok(desk) => tell_impact(rt, alloc, asked.workers(), to, desk, channels),
        Err(NotStarted { why, keeper }) => {
            let status = tell_start(alloc, &why, &mut channels.sink, &mut channels.log);
            RunEnd {
                status,
                world: World { keeper, channels },
            }
        }
    }
}

// Judges the orders of a desk by the book, tells what they come to, and finishes the desk. Whatever its keeper told before.
fn tell_impact<R: Threads + Sync, S: Source, K: Sink, F: Files, P: Keeper, D: Door>(
    rt: &R,
    alloc: Global,
    workers: u32,
    to: &Released,
    desk: Desk<P>,
    mut channels: Channels<S, K, F, D>,
) -> RunEnd<World<S, K, F, P, D>>
    requires { 0 < workers }
    ensures { (kept : KeeperTold) →
        let sees = seen S.input K.output F.told P.told P.failures D.told D.faultless in
        let before = channels_seen S.input K.output F.told D.told D.faultless kept channels in
        JudgesAgain (RepliesToImpact to.now.book) desk before (sees result.world) result.status }
{
    let reply = impact_reply(rt, alloc, workers, &desk, to);
    let status = tell_made(reply, &mut channels.sink, &mut channels.log);
    RunEnd {
        status,
        world: World {
            keeper: desk.finish(),
            channels,
        },
    }
}

fn impact_reply<R: Threads + Sync, P: Keeper>(
    rt: &R,
    alloc: Global,
    workers: u32,
    desk: &Desk<P>,
    to: &Released,
) -> Result<RunReply, Memory>
    requires { 0 < workers }
    ensures { IfOk result (RepliesToImpact to.now.book desk.now.tables) }
{
    let stock = stock_of(alloc, desk)?;
    let told = rejudge(rt, alloc, to, &stock, workers)?;
    let text = impact_text(alloc, to.book(), &stock, &told)?;
    Ok(RunReply::plain(alloc, text, RunStatus::Done))
}
