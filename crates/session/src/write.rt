//! Writing to a link.
ghost use Rattle.std.specs.Prelude.{◌≡◌, ◌++◌, OnOk, IfErr};
ghost use Rattle.pb_outside.specs.Sink.{Takes};
ghost use Rattle.session.specs.Responses.{closing_memory_response};
ghost use Rattle.session.specs.Session.{WriteFails};
ghost use Rattle.session.specs.Steps.{EndsWith};

use crate::end::{SessionEnd, WriteFault};
use http_api::memory_response;
use pb_outside::{Link, OutError};

/// Writes a piece that is no response.
pub(crate) fn write<L: Link>(link: &mut L, piece: &[u8]) -> Result<(), WriteFault>
    ensures whole { OnOk result (Takes piece.now (L.output link.old) (L.output link.new)) }
    ensures cut { IfErr result (WriteFails piece.now (L.output link.old) (L.output link.new)) }
    ensures other_end { L.input link.new ≡ L.input link.old }
    ensures same_names { L.names link.new ≡ L.names link.old }
{
    let before = link.write_faults();
    match link.write(piece) {
        Ok(()) => Ok(()),
        Err(OutError::Failed) => Err(WriteFault {
            before,
            after: link.write_faults(),
        }),
        Err(OutError::Memory) => unreachable!(),
    }
}

/// Writes the two pieces of a response, one behind the other, by one write. A link may count responses so.
pub(crate) fn write_both<L: Link>(
    link: &mut L,
    first: &[u8],
    second: &[u8],
) -> Result<(), WriteFault>
    ensures whole { OnOk result (Takes (first.now ++ second.now) (L.output link.old) (L.output link.new)) }
    ensures cut { IfErr result (WriteFails (first.now ++ second.now) (L.output link.old) (L.output link.new)) }
    ensures other_end { L.input link.new ≡ L.input link.old }
    ensures same_names { L.names link.new ≡ L.names link.old }
{
    let before = link.write_faults();
    match link.write_both(first, second) {
        Ok(()) => Ok(()),
        Err(OutError::Failed) => Err(WriteFault {
            before,
            after: link.write_faults(),
        }),
        Err(OutError::Memory) => unreachable!(),
    }
}

/// Writes the last response of a session that is to end so.
pub(crate) fn end_with<L: Link>(link: &mut L, piece: &[u8], end: SessionEnd) -> SessionEnd
    ensures ends { EndsWith end piece.now result (L.output link.old) (L.output link.new) }
    ensures other_end { L.input link.new ≡ L.input link.old }
    ensures same_names { L.names link.new ≡ L.names link.old }
{
    match write_both(link, piece, &[]) {
        Ok(()) => end,
        Err(fault) => SessionEnd::WriteFault(fault),
    }
}

/// Ends a session for which there is no memory to read on.
pub(crate) fn give_up<L: Link>(link: &mut L) -> SessionEnd
    ensures ends { let before = L.output link.old in
        EndsWith SessionEnd.Memory closing_memory_response result before (L.output link.new) }
    ensures other_end { L.input link.new ≡ L.input link.old }
    ensures same_names { L.names link.new ≡ L.names link.old }
{
    end_with(link, memory_response(true, false), SessionEnd::Memory)
}
