//! Writing the response to a message.
ghost use Rattle.std.specs.Prelude.{◌≡◌, OnOk, IfErr, false};
ghost use Rattle.pb_outside.specs.Sink.{Takes};
ghost use Rattle.session.specs.Session.{WriteFails};
ghost use Rattle.session.specs.Steps.{EndsAnswered, text_of};

use crate::answer::is_bare;
use crate::end::{SessionEnd, WriteFault};
use crate::write::write_both;
use http_api::{Response, memory_response};
use http_wire::Head;
use pb_base::Memory;
use pb_outside::Link;

/// Writes the response to a message. Behind a message that closes the session ends.
pub(crate) fn respond<L: Link>(
    link: &mut L,
    head: &Head,
    made: Result<Response, Memory>,
) -> Result<(), SessionEnd>
    ensures open { OnOk result (head.now.close ≡ false) }
    ensures whole { OnOk result (Takes (text_of head.now made) (L.output link.old) (L.output link.new)) }
    ensures ended { let text = text_of head.now made in
        IfErr result (λ end. EndsAnswered end head.now text (L.output link.old) (L.output link.new)) }
    ensures other_end { L.input link.new ≡ L.input link.old }
    ensures same_names { L.names link.new ≡ L.names link.old }
{
    write_response(link, head, made)?;
    if head.close {
        return Err(SessionEnd::Done);
    }
    Ok(())
}

fn write_response<L: Link>(
    link: &mut L,
    head: &Head,
    made: Result<Response, Memory>,
) -> Result<(), WriteFault>
    ensures whole { OnOk result (Takes (text_of head.now made) (L.output link.old) (L.output link.new)) }
    ensures cut { let text = text_of head.now made in
        IfErr result (WriteFails text (L.output link.old) (L.output link.new)) }
    ensures other_end { L.input link.new ≡ L.input link.old }
    ensures same_names { L.names link.new ≡ L.names link.old }
{
    match made {
        Ok(response) => {
            let (front, rest) = response.pieces();
            write_both(link, front, rest)
        }
        Err(Memory) => write_both(link, memory_response(head.close, is_bare(head)), &[]),
    }
}
