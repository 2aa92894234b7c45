//! What is told where no task is had from the words.
ghost use Rattle.commands.specs.Does.{AnswersUsage, AnswersMemory};
ghost use Rattle.commands.specs.Outside.{seen};

use crate::run_end::RunEnd;
use crate::world::World;
use book_commands::{tell_usage, tell_want_of_memory};
use keeper::Keeper;
use pb_door::Door;
use pb_outside::{Files, Sink, Source};

/// Tells how the program is called, since the words are of no form.
pub(crate) fn tell_no_form<S: Source, K: Sink, F: Files, P: Keeper, D: Door>(
    mut world: World<S, K, F, P, D>,
) -> RunEnd<World<S, K, F, P, D>>
    ensures { let sees = seen S.input K.output F.told P.told P.failures D.told D.faultless in
        AnswersUsage (sees world) (sees result.world) result.status }
{
    let status = tell_usage(&mut world.channels.sink, &mut world.channels.log);
    RunEnd { status, world }
}

/// Tells that there was no memory for the words.
pub(crate) fn tell_no_memory<S: Source, K: Sink, F: Files, P: Keeper, D: Door>(
    mut world: World<S, K, F, P, D>,
) -> RunEnd<World<S, K, F, P, D>>
    ensures { let sees = seen S.input K.output F.told P.told P.failures D.told D.faultless in
        AnswersMemory (sees world) (sees result.world) result.status }
{
    let status = tell_want_of_memory(&mut world.channels.sink, &mut world.channels.log);
    RunEnd { status, world }
}
