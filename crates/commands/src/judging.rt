//! The orders that a desk keeps, judged again by one of its books.
ghost use Rattle.std.specs.Prelude.{◌≡◌, ◌<◌, IfOk};
ghost use Rattle.commands.specs.Outside.{KeeperTold, channels_seen, seen};
ghost use Rattle.commands.specs.Rejudged.{JudgesAgain, RepliesAgain, RepliesToRejudge, RunsRejudge, no_book_reply};

use crate::desk::tell_start;
use crate::run_end::RunEnd;
use crate::stock::stock_of;
use crate::world::{Channels, World};
use book_commands::{RunReply, RunStatus, tell_made};
use command_words::Rejudging;
use keeper::Keeper;
use order_again::{rejudge, stock_text};
use order_desk::{Desk, ManyHands, NotStarted};
use pb_base::{Memory, Text};
use pb_door::Door;
use pb_outside::{Files, Sink, Source};
use release::Released;
use std::alloc::Global;
use std::thread::Threads;

/// Starts the desk whose rows the keeper has in this store, judges its orders again by the book, and tells what they come to.
/// The source, the files and the door are not touched.
pub fn run_rejudge<R: Threads + Sync, S: Source, K: Sink, F: Files, P: Keeper, D: Door>(
    rt: &R,
    alloc: Global,
    asked: &Rejudging,
    world: World<S, K, F, P, D>,
) -> RunEnd<World<S, K, F, P, D>>
    requires named { P.may_begin world.keeper asked.now.store }
    ensures { let sees = seen S.input K.output F.told P.told P.failures D.told D.faultless in
        RunsRejudge asked.now (sees world) (sees result.world) result.status }
{
    let World {
        keeper,
        mut channels,
    } = world;
    let hands = ManyHands {
        rt,
        workers: asked.workers(),
    };
    match Desk::start_by(alloc, &hands, keeper, asked.store()) {
        Ok(desk) => judge_kept(rt, alloc, asked, desk, channels),
        Err(NotStarted { why, keeper }) => {
            let status = tell_start(alloc, &why, &mut channels.sink, &mut channels.log);
            RunEnd {
                status,
                world: World { keeper, channels },
            }
        }
    }
}

// Judges the orders of a desk again, tells what they come to, and finishes the desk. Whatever its keeper told before.
fn judge_kept<R: Threads + Sync, S: Source, K: Sink, F: Files, P: Keeper, D: Door>(
    rt: &R,
    alloc: Global,
    asked: &Rejudging,
    desk: Desk<P>,
    mut channels: Channels<S, K, F, D>,
) -> RunEnd<World<S, K, F, P, D>>
    ensures { (kept : KeeperTold) →
        let sees = seen S.input K.output F.told P.told P.failures D.told D.faultless in
        let before = channels_seen S.input K.output F.told D.told D.faultless kept channels in
        JudgesAgain (RepliesToRejudge asked.now) desk before (sees result.world) result.status }
{
    let reply = rejudge_reply(rt, alloc, asked, &desk);
    let status = tell_made(reply, &mut channels.sink, &mut channels.log);
    RunEnd {
        status,
        world: World {
            keeper: desk.finish(),
            channels,
        },
    }
}

fn rejudge_reply<R: Threads + Sync, P: Keeper>(
    rt: &R,
    alloc: Global,
    asked: &Rejudging,
    desk: &Desk<P>,
) -> Result<RunReply, Memory>
    ensures { IfOk result (RepliesToRejudge asked.now desk.now.tables) }
{
    match desk.book_at(asked.book()) {
        Some(book) => {
            let to: &Released = book;
            again_reply(rt, alloc, asked.workers(), desk, to)
        }
        None => no_book_reply(alloc),
    }
}

fn again_reply<R: Threads + Sync, P: Keeper>(
    rt: &R,
    alloc: Global,
    workers: u32,
    desk: &Desk<P>,
    to: &Released,
) -> Result<RunReply, Memory>
    requires { 0 < workers }
    ensures { IfOk result (RepliesAgain desk.now.tables to.now.book) }
{
    let stock = stock_of(alloc, desk)?;
    let told = rejudge(rt, alloc, to, &stock, workers)?;
    let text = stock_text(alloc, to.book(), &stock, &told)?;
    Ok(RunReply::plain(alloc, text, RunStatus::Done))
}

fn no_book_reply(alloc: Global) -> Result<RunReply, Memory>
    ensures { IfOk result (λ reply. reply ≡ no_book_reply) }
{
    let mut text = Text::new(alloc);
    text.put(b"no such book\n")?;
    Ok(RunReply::plain(alloc, text.into_body(), RunStatus::Faulty))
}
