//! Reading a source to its end.
ghost use Rattle.std.specs.Prelude.{◌≡◌, ◌≤◌, IfOk, OnOk, OnErr, length};
ghost use Rattle.pb_outside.specs.Faults.{Fails, IsLater};
ghost use Rattle.pb_outside.specs.Source.{ReadsUpTo, LosesFront};

use crate::{OutError, Source};
use std::alloc::Global;

/// Reads a source to its end, or through `limit` bytes; the rest is then left unread. After an error what was
/// read is gone.
pub fn read_up_to<S: Source>(
    alloc: Global,
    source: &mut S,
    limit: usize,
) -> Result<Vec<u8>, OutError>
    ensures at_most { IfOk result (λ bytes. length bytes.items ≤ limit) }
    ensures told { let left = (S.input source.old).left in
        let left' = (S.input source.new).left in
        IfOk result (λ bytes. ReadsUpTo limit left left' bytes.items) }
    ensures stays { OnOk result ((S.input source.new).faults.count ≡ (S.input source.old).faults.count) }
    ensures front { OnErr result (LosesFront limit (S.input source.old).left (S.input source.new).left) }
    ensures cause { let before = (S.input source.old).faults in
        let after = (S.input source.new).faults in
        result ≡ Err OutError.Failed → Fails before after }
    ensures later { IsLater (S.input source.old).faults (S.input source.new).faults }
    ensures other_end { S.output source.new ≡ S.output source.old }
    ensures same_names { S.names source.new ≡ S.names source.old }
{
    let mut bytes = Vec::new(alloc);
    while bytes.len() < limit {
        let room = limit - bytes.len();
        if source.read(&mut bytes, room)? == 0 {
            break;
        }
    }
    Ok(bytes)
}
