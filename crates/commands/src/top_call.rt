//! The top call: words and a world in, a status out.
ghost use Rattle.std.specs.Prelude.{ℕ, List};
ghost use Rattle.command_words.specs.Prepared.{texts_of};
ghost use Rattle.commands.specs.Outside.{seen};
ghost use Rattle.commands.specs.Run.{IsRun};
ghost use Rattle.commands.specs.Words.{NamesPort, NamesStore};

use crate::beginning::begin;
use crate::begun::Begun;
use crate::run_end::RunEnd;
use crate::serving::run_service;
use crate::world::World;
use answering::Gate;
use keeper::Keeper;
use pb_door::Door;
use pb_outside::{Files, Sink, Source};
use std::alloc::Global;
use std::sync::Wait;
use std::thread::Threads;

/// Does what the words ask, and gives the status with which the program ends, and the world. `words` are those after the
/// program's name. The keeper may begin by the store's name in the words, and need not by another; the door may listen at their
/// port, and need not at another. Only a service waits for others, so that of it all is said if it returns; what else the words
/// may ask is done by `begin`, which returns.
pub fn run<
    R: Threads + Wait + Sync,
    S: Source,
    K: Sink,
    F: Files,
    P: Keeper + Send,
    D: Door,
    G: Gate + Sync,
>(
    rt: &R,
    alloc: Global,
    words: &[String],
    world: World<S, K, F, P, D>,
    gate: &G,
) -> RunEnd<World<S, K, F, P, D>>
    requires named { (store : List ℕ) → NamesStore (texts_of words.now) store → P.may_begin world.keeper store }
    requires at_port { (port : ℕ) → NamesPort (texts_of words.now) port → D.may_listen world.channels.door port }
    ensures { let sees = seen S.input K.output F.told P.told P.failures D.told D.faultless in
        IsRun (texts_of words.now) (sees world) (sees result.world) result.status }
{
    match begin(rt, alloc, words, world, gate) {
        Begun::Ended(end) => end,
        Begun::Awaited(service, left) => run_service(rt, alloc, &service, left, gate),
    }
}
