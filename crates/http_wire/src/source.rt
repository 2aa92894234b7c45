//! Reading more of a source.
ghost use Rattle.std.specs.Prelude.{◌≡◌, ◌<◌, ◌≤◌, false, [], IfOk, OnOk, OnErr, IfSome, MatchBool, length};
ghost use Rattle.std.specs.Io.KnownBytes.{Keeps};
ghost use Rattle.pb_base.specs.Answers.{IfRefused};
ghost use Rattle.pb_outside.specs.Faults.{IsLater};
ghost use Rattle.pb_outside.specs.Source.{Appends, ReadsPiece};
ghost use Rattle.http_wire.specs.Stream.{ReadFails, StreamStep, SameStream};

use crate::fault::ReadFault;
use pb_base::Fail;
use pb_outside::{OutError, Source};

/// Appends the next bytes of a source, `most` of them at most, and answers how many. 0 is the end.
pub fn read_more<S: Source>(
    bytes: &mut Vec<u8>,
    source: &mut S,
    most: usize,
) -> Result<usize, Fail<ReadFault>>
    requires { 1 ≤ most }
    ensures at_most { IfOk result (λ count. count ≤ most) }
    ensures appends { IfOk result (λ count. Appends count bytes.old.items bytes.new.items) }
    ensures told { let left = (S.input source.old).left in
        let left' = (S.input source.new).left in
        IfOk result (λ count. ReadsPiece count left left' bytes.old.items bytes.new.items) }
    ensures stays { OnOk result ((S.input source.new).faults.count ≡ (S.input source.old).faults.count) }
    ensures unchanged { OnErr result (bytes.new.items ≡ bytes.old.items) }
    ensures kept { OnErr result (Keeps (S.input source.old).left (S.input source.new).left) }
    ensures cause { IfRefused result (ReadFails (S.input source.old).faults (S.input source.new).faults) }
    ensures later { IsLater (S.input source.old).faults (S.input source.new).faults }
    ensures other_end { S.output source.new ≡ S.output source.old }
    ensures same_names { S.names source.new ≡ S.names source.old }
{
    let before = source.read_faults();
    match source.read(bytes, most) {
        Ok(count) => Ok(count),
        Err(OutError::Memory) => Err(Fail::Memory),
        Err(OutError::Failed) => Err(Fail::Refused(ReadFault {
            before,
            after: source.read_faults(),
        })),
    }
}

/// Reads until there are `count` bytes, and answers whether the source had so many.
pub fn read_until<S: Source>(
    bytes: &mut Vec<u8>,
    source: &mut S,
    count: usize,
) -> Result<bool, Fail<ReadFault>>
    requires { length bytes.old.items ≤ count }
    ensures whole { IfOk result (λ whole. MatchBool whole (length bytes.new.items ≡ count)
        (length bytes.new.items < count)) }
    ensures ended { let left' = (S.input source.new).left in
        result ≡ Ok false → IfSome (S.input source.old).left (λ _. left' ≡ Some []) }
    ensures stream { let left = (S.input source.old).left in
        let left' = (S.input source.new).left in
        StreamStep SameStream bytes.old.items left bytes.new.items left' }
    ensures stays { OnOk result ((S.input source.new).faults.count ≡ (S.input source.old).faults.count) }
    ensures cause { IfRefused result (ReadFails (S.input source.old).faults (S.input source.new).faults) }
    ensures later { IsLater (S.input source.old).faults (S.input source.new).faults }
    ensures other_end { S.output source.new ≡ S.output source.old }
    ensures same_names { S.names source.new ≡ S.names source.old }
{
    while bytes.len() < count {
        let missing = count - bytes.len();
        if read_more(bytes, source, missing)? == 0 {
            return Ok(false);
        }
    }
    Ok(true)
}
