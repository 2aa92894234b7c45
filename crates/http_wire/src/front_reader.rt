//! Reading up to the end of a head.
ghost use Rattle.std.specs.Prelude.{◌≡◌, ◌<◌, ◌≤◌, [], Ok, Some, IfOk, OnOk, OnErr, IfSome, length};
ghost use Rattle.pb_base.specs.Answers.{IfRefused};
ghost use Rattle.pb_outside.specs.Faults.{IsLater};
ghost use Rattle.http_wire.specs.Fronts.{HasFront, IsHeld};
ghost use Rattle.http_wire.specs.Search.{IsSearched};
ghost use Rattle.http_wire.specs.Stream.{ReadFails, StreamStep, SameStream};
ghost use Rattle.http_wire.specs.declared.limits.TheConstants.{MOST_HEAD_BYTES};

use crate::fault::ReadFault;
use crate::front::Front;
use crate::limits::MOST_HEAD_BYTES;
use crate::search::Search;
use crate::source::read_more;
use pb_base::Fail;
use pb_outside::Source;

/// Reads until it is known what stands at the front of the stream, where the bytes so far were searched and do not show
/// it. No more is read than a head may have.
pub fn read_front<S: Source>(
    bytes: &mut Vec<u8>,
    search: Search,
    source: &mut S,
) -> Result<Front, Fail<ReadFault>>
    requires searched { IsSearched search.skipped search.seen bytes.old.items }
    requires all { search.seen ≡ length bytes.old.items }
    requires short { length bytes.old.items < MOST_HEAD_BYTES }
    ensures small { length bytes.new.items ≤ MOST_HEAD_BYTES }
    ensures front { let left = (S.input source.old).left in
        let left' = (S.input source.new).left in
        IfOk result (λ found. StreamStep (HasFront found) bytes.old.items left bytes.new.items left') }
    ensures held { IfOk result (IsHeld bytes.new.items) }
    ensures ended { let left' = (S.input source.new).left in
        result ≡ Ok Front.End → IfSome (S.input source.old).left (λ _. left' ≡ Some []) }
    ensures lost { let left = (S.input source.old).left in
        let left' = (S.input source.new).left in
        OnErr result (StreamStep SameStream bytes.old.items left bytes.new.items left') }
    ensures stays { OnOk result ((S.input source.new).faults.count ≡ (S.input source.old).faults.count) }
    ensures cause { IfRefused result (ReadFails (S.input source.old).faults (S.input source.new).faults) }
    ensures later { IsLater (S.input source.old).faults (S.input source.new).faults }
    ensures other_end { S.output source.new ≡ S.output source.old }
    ensures same_names { S.names source.new ≡ S.names source.old }
{
    let mut search = search;
    loop {
        let room = MOST_HEAD_BYTES - bytes.len();
        if read_more(bytes, source, room)? == 0 {
            return Ok(search.at_end(bytes));
        }
        if let Some(front) = search.look(bytes) {
            return Ok(front);
        }
    }
}
