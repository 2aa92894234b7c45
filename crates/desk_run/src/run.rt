//! The run: a desk is started, serves one link, and is finished.
ghost use Rattle.answering.specs.LaterHand.{IsLaterHand};
ghost use Rattle.session.specs.Dealing.{HasDealt};
ghost use Rattle.session.specs.Session.{told};
ghost use Rattle.desk_run.specs.DeskRun.{IsDeskRun, ServesLink, outside};

use crate::end::{DeskEnd, DeskRun};
use crate::halves::Halves;
use answering::{Alone, Gate, Turns};
use keeper::Keeper;
use order_desk::{Desk, NotStarted};
use pb_outside::{Sink, Source};
use session::{SessionEnd, session};
use std::alloc::Global;

/// How many steps of its desk one run makes at most. Then each further call is answered that the calls are used up.
pub const MOST_STEPS: u64 = 1_000_000;

/// Starts the desk whose rows are kept in the store of this name, answers the messages of the source over the sink, and gives
/// the keeper back with the rows of the desk as it is then.
pub fn run_desk<S: Source, K: Sink, P: Keeper, G: Gate>(
    alloc: Global,
    store: &str,
    source: &mut S,
    sink: &mut K,
    keeper: P,
    gate: &G,
) -> DeskRun<P>
    requires { P.may_begin keeper store.now }
    ensures { let before = outside (told (S.input source.old) (K.output sink.old)) (P.told keeper) (P.failures keeper) in
        let link = told (S.input source.new) (K.output sink.new) in
        let after = outside link (P.told result.keeper) (P.failures result.keeper) in
        IsDeskRun result.how before after }
{
    match Desk::start(alloc, keeper, store) {
        Ok(desk) => {
            let (end, keeper) = serve(alloc, desk, source, sink, gate);
            DeskRun {
                how: DeskEnd::Served(end),
                keeper,
            }
        }
        Err(NotStarted { why, keeper }) => DeskRun {
            how: DeskEnd::NotStarted(why),
            keeper,
        },
    }
}

// Serves one link by a desk, and finishes the desk.
fn serve<S: Source, K: Sink, P: Keeper, G: Gate>(
    alloc: Global,
    desk: Desk<P>,
    source: &mut S,
    sink: &mut K,
    gate: &G,
) -> (SessionEnd, P)
    ensures { let link = told (S.input source.new) (K.output sink.new) in
        let after = outside link (P.told result.1) (P.failures result.1) in
        ServesLink desk result.0 (told (S.input source.old) (K.output sink.old)) after }
{
    let mut turns = Alone::new(desk, MOST_STEPS);
    let end = serve_ends(alloc, source, sink, &mut turns, gate);
    (end, turns.into_desk().finish())
}

// Answers the messages of the source over the sink, whoever makes the steps.
fn serve_ends<S: Source, K: Sink, T: Turns, G: Gate>(
    alloc: Global,
    source: &mut S,
    sink: &mut K,
    turns: &mut T,
    gate: &G,
) -> SessionEnd
    ensures dealt { let link = told (S.input source.old) (K.output sink.old) in
        let link' = told (S.input source.new) (K.output sink.new) in
        HasDealt result (T.hand turns.old) link link' (T.hand turns.new) }
    ensures steps { IsLaterHand (T.hand turns.old) (T.hand turns.new) }
{
    session(alloc, &mut Halves::new(source, sink), turns, gate)
}
