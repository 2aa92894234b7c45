//! What a run does without waiting: all but a service.
ghost use Rattle.std.specs.Prelude.{◌≡◌, ℕ, List, Some};
ghost use Rattle.command_words.specs.Meaning.{Asks};
ghost use Rattle.command_words.specs.Prepared.{texts_of};
ghost use Rattle.command_words.specs.declared.task.Task.TheVariants.{Serve};
ghost use Rattle.commands.specs.Begun.{IfEnded, IfService};
ghost use Rattle.commands.specs.Does.{AnswersBook, AnswersSample, DoesTask};
ghost use Rattle.commands.specs.Outside.{KeeperTold, channels_seen, seen};
ghost use Rattle.commands.specs.Run.{IsRun};
ghost use Rattle.commands.specs.Words.{NamesStore, store_of};

use crate::begun::Begun;
use crate::desk::run_store;
use crate::impact::run_impact;
use crate::judging::run_rejudge;
use crate::run_end::RunEnd;
use crate::usage::{tell_no_form, tell_no_memory};
use crate::world::{Channels, World};
use answering::Gate;
use book_commands::{RunStatus, due_reply, sample_reply, tell_made};
use command_words::{BookCommand, SampleSize, Task, task_of};
use keeper::Keeper;
use pb_base::Memory;
use pb_door::Door;
use pb_outside::{Files, Sink, Source};
use std::alloc::Global;
use std::thread::Threads;

/// Does what the words ask, unless it is a service, which it gives back with the world. It waits for nobody, so it returns
/// whatever the words are. The keeper may begin by the store's name in the words.
pub fn begin<R: Threads + Sync, S: Source, K: Sink, F: Files, P: Keeper, D: Door, G: Gate>(
    rt: &R,
    alloc: Global,
    words: &[String],
    world: World<S, K, F, P, D>,
    gate: &G,
) -> Begun<World<S, K, F, P, D>>
    requires named { (store : List ℕ) → NamesStore (texts_of words.now) store → P.may_begin world.keeper store }
    ensures ended { let sees = seen S.input K.output F.told P.told P.failures D.told D.faultless in
        IfEnded result (λ end. IsRun (texts_of words.now) (sees world) (sees end.world) end.status) }
    ensures asked { IfService result (λ service left. Asks (texts_of words.now) (Serve service)) }
    ensures startable { IfService result (λ service left. P.may_begin left.keeper service.store) }
    ensures untouched { IfService result (λ service left. left ≡ world) }
{
    match task_of(alloc, words) {
        Ok(Some(task)) => do_task(rt, alloc, task, world, gate),
        Ok(None) => Begun::Ended(tell_no_form(world)),
        Err(Memory) => Begun::Ended(tell_no_memory(world)),
    }
}

fn do_task<R: Threads + Sync, S: Source, K: Sink, F: Files, P: Keeper, D: Door, G: Gate>(
    rt: &R,
    alloc: Global,
    task: Task,
    mut world: World<S, K, F, P, D>,
    gate: &G,
) -> Begun<World<S, K, F, P, D>>
    requires named { (store : List ℕ) → store_of task ≡ Some store → P.may_begin world.keeper store }
    ensures ended { let sees = seen S.input K.output F.told P.told P.failures D.told D.faultless in
        IfEnded result (λ end. DoesTask task (sees world) (sees end.world) end.status) }
    ensures asked { IfService result (λ service left. task ≡ Serve service) }
    ensures startable { IfService result (λ service left. P.may_begin left.keeper service.store) }
    ensures untouched { IfService result (λ service left. left ≡ world) }
{
    match task {
        Task::Book(command) => {
            let status = answer(rt, alloc, &command, &mut world.channels);
            Begun::Ended(RunEnd { status, world })
        }
        Task::Desk { store } => Begun::Ended(run_store(alloc, &store, world, gate)),
        Task::Serve(service) => Begun::Awaited(service, world),
        Task::Rejudge(asked) => Begun::Ended(run_rejudge(rt, alloc, &asked, world)),
        Task::Impact(asked) => Begun::Ended(run_impact(rt, alloc, &asked, world)),
        Task::Sample(size) => {
            let status = tell_sample(alloc, &size, &mut world.channels);
            Begun::Ended(RunEnd { status, world })
        }
    }
}

// Whatever the keeper tells, which is not touched.
fn answer<R: Threads + Sync, S: Source, K: Sink, F: Files, D: Door>(
    rt: &R,
    alloc: Global,
    command: &BookCommand,
    channels: &mut Channels<S, K, F, D>,
) -> RunStatus
    ensures { (kept : KeeperTold) → let sees = channels_seen S.input K.output F.told D.told D.faultless kept in
        AnswersBook command.now (sees channels.old) (sees channels.new) result }
{
    let reply = due_reply(
        rt,
        alloc,
        command,
        &mut channels.source,
        &mut channels.files,
    );
    tell_made(reply, &mut channels.sink, &mut channels.log)
}

fn tell_sample<S: Source, K: Sink, F: Files, D: Door>(
    alloc: Global,
    size: &SampleSize,
    channels: &mut Channels<S, K, F, D>,
) -> RunStatus
    ensures { (kept : KeeperTold) → let sees = channels_seen S.input K.output F.told D.told D.faultless kept in
        AnswersSample size.now (sees channels.old) (sees channels.new) result }
{
    let reply = sample_reply(alloc, size);
    tell_made(reply, &mut channels.sink, &mut channels.log)
}
