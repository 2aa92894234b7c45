//! A run with the words that the system gives.
ghost use Rattle.std.specs.Prelude.{◌≡◌, ◌≢◌, ℕ, List, IfOk, IfErr, IsOkAnd};
ghost use Rattle.std.specs.IoError.{error_kind};
ghost use Rattle.command_words.specs.Meaning.{Asks};
ghost use Rattle.command_words.specs.Prepared.{texts_of};
ghost use Rattle.command_words.specs.declared.task.Task.TheVariants.{Serve};
ghost use Rattle.commands.specs.Begun.{IfEnded, IfService};
ghost use Rattle.commands.specs.Outside.{seen};
ghost use Rattle.commands.specs.Does.{AnswersUsage, AnswersMemory};
ghost use Rattle.commands.specs.Run.{IsRun};
ghost use Rattle.commands.specs.Words.{NamesPort, NamesStore};

use crate::beginning::begin;
use crate::begun::Begun;
use crate::run_end::RunEnd;
use crate::top_call::run;
use crate::usage::{tell_no_form, tell_no_memory};
use crate::world::World;
use answering::Gate;
use keeper::Keeper;
use pb_door::Door;
use pb_outside::{Files, Sink, Source};
use std::alloc::Global;
use std::io;
use std::io::ErrorKind;
use std::sync::Wait;
use std::thread::Threads;

/// Does what the given words ask, and gives the status and the world. Where the system can't give them as text, as where a
/// word isn't UTF-8, they are of no form.
pub fn run_given<
    R: Threads + Wait + Sync,
    S: Source,
    K: Sink,
    F: Files,
    P: Keeper + Send,
    D: Door,
    G: Gate + Sync,
>(
    rt: &R,
    alloc: Global,
    given: io::Result<Vec<String>>,
    world: World<S, K, F, P, D>,
    gate: &G,
) -> RunEnd<World<S, K, F, P, D>>
    requires named { IfOk given (λ words. (store : List ℕ) → NamesStore (texts_of words.items) store
        → P.may_begin world.keeper store) }
    requires at_port { IfOk given (λ words. (port : ℕ) → NamesPort (texts_of words.items) port
        → D.may_listen world.channels.door port) }
    ensures text { let sees = seen S.input K.output F.told P.told P.failures D.told D.faultless in
        IfOk given (λ words. IsRun (texts_of words.items) (sees world) (sees result.world) result.status) }
    ensures none { let sees = seen S.input K.output F.told P.told P.failures D.told D.faultless in
        let usage = AnswersUsage (sees world) (sees result.world) result.status in
        IfErr given (λ error. error_kind error ≢ ErrorKind.OutOfMemory → usage) }
    ensures want { let sees = seen S.input K.output F.told P.told P.failures D.told D.faultless in
        let want = AnswersMemory (sees world) (sees result.world) result.status in
        IfErr given (λ error. error_kind error ≡ ErrorKind.OutOfMemory → want) }
{
    match given {
        Ok(words) => run(rt, alloc, &words, world, gate),
        Err(error) => tell_no_words(&error, world),
    }
}

/// The same of all but a service, which it gives back with the world. It waits for nobody, so it returns whatever the words are.
pub fn begin_given<R: Threads + Sync, S: Source, K: Sink, F: Files, P: Keeper, D: Door, G: Gate>(
    rt: &R,
    alloc: Global,
    given: io::Result<Vec<String>>,
    world: World<S, K, F, P, D>,
    gate: &G,
) -> Begun<World<S, K, F, P, D>>
    requires named { IfOk given (λ words. (store : List ℕ) → NamesStore (texts_of words.items) store
        → P.may_begin world.keeper store) }
    ensures text { let sees = seen S.input K.output F.told P.told P.failures D.told D.faultless in
        IfOk given (λ words.
        IfEnded result (λ end. IsRun (texts_of words.items) (sees world) (sees end.world) end.status)) }
    ensures none { let sees = seen S.input K.output F.told P.told P.failures D.told D.faultless in
        IfErr given (λ error. error_kind error ≢ ErrorKind.OutOfMemory
        → IfEnded result (λ end. AnswersUsage (sees world) (sees end.world) end.status)) }
    ensures want { let sees = seen S.input K.output F.told P.told P.failures D.told D.faultless in
        IfErr given (λ error. error_kind error ≡ ErrorKind.OutOfMemory
        → IfEnded result (λ end. AnswersMemory (sees world) (sees end.world) end.status)) }
    ensures asked { IfService result (λ service left.
        IsOkAnd given (λ words. Asks (texts_of words.items) (Serve service))) }
    ensures startable { IfService result (λ service left. P.may_begin left.keeper service.store) }
    ensures untouched { IfService result (λ service left. left ≡ world) }
{
    match given {
        Ok(words) => begin(rt, alloc, &words, world, gate),
        Err(error) => Begun::Ended(tell_no_words(&error, world)),
    }
}

fn tell_no_words<S: Source, K: Sink, F: Files, P: Keeper, D: Door>(
    error: &io::Error,
    world: World<S, K, F, P, D>,
) -> RunEnd<World<S, K, F, P, D>>
    ensures none { let sees = seen S.input K.output F.told P.told P.failures D.told D.faultless in
        error_kind error.now ≢ ErrorKind.OutOfMemory → AnswersUsage (sees world) (sees result.world) result.status }
    ensures want { let sees = seen S.input K.output F.told P.told P.failures D.told D.faultless in
        error_kind error.now ≡ ErrorKind.OutOfMemory → AnswersMemory (sees world) (sees result.world) result.status }
{
    match error.kind() {
        ErrorKind::OutOfMemory => tell_no_memory(world),
        _ => tell_no_form(world),
    }
}
