//! What no session does behind a response that its link didn't take.
ghost use Rattle.std.specs.Prelude.{◌≡◌};
ghost use Rattle.session.specs.declared.end.SessionEnd.TheVariants as SessionEnd;
ghost use Rattle.session.specs.declared.end.WriteFault.{WriteFault};
ghost use Rattle.desk_guards.specs.Sessions.{LeavesOneUntold};

use answering::{Gate, Turns};
use pb_outside::Link;
use session::{SessionEnd, session};
use std::alloc::Global;

/// Orders would be kept of a link that is broken, and nobody would be told of them.
pub fn no_call_is_answered_behind_a_failed_write<L: Link, T: Turns, G: Gate>(
    alloc: Global,
    link: &mut L,
    turns: &mut T,
    gate: &G,
) -> SessionEnd
    ensures { (fault : WriteFault) → result ≡ SessionEnd.WriteFault fault
        → LeavesOneUntold (T.hand turns.old) (L.output link.old) (T.hand turns.new) }
{
    session(alloc, link, turns, gate)
}
