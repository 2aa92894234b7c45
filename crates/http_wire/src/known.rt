//! What the fields of a head say, as far as the reader knows them.
ghost use Rattle.std.specs.Prelude.{◌≡◌, ◌&&◌, List, [], ◌∷◌, ◌++◌, codes};
ghost use Rattle.http_wire.specs.Fields.{Field, is_continue, same_word, says_close};
ghost use Rattle.http_wire.specs.Known.{AreKnown};

use crate::few::Few;
use crate::word::{is_continue, same_word, says_close};

/// What the fields of a head say, as far as the reader knows them.
#[derive(Clone, Copy)]
pub struct KnownFields<'a> {
    pub host: Few<'a>,
    pub coding: Few<'a>,
    pub length: Few<'a>,
    pub caller: Few<'a>,
    /// Whether a Connection field asks to close.
    pub close: bool,
    /// Whether an Expect field awaits 100 Continue.
    pub expect: bool,
}

impl<'a> KnownFields<'a> {
    /// What no field says.
    pub fn none() -> KnownFields<'a>
        ensures { AreKnown [] result }
    {
        KnownFields {
            host: Few::None,
            coding: Few::None,
            length: Few::None,
            caller: Few::None,
            close: false,
            expect: false,
        }
    }

    /// The same with one field more.
    pub fn put(&mut self, name: &[u8], value: &'a [u8])
        ensures { (fields : List Field) → AreKnown fields self.old
            → AreKnown (fields ++ (name.now, value.now) ∷ []) self.new }
    {
        self.host = self.host.with_field(b"Host", name, value);
        self.length = self.length.with_field(b"Content-Length", name, value);
        self.caller = self.caller.with_field(b"X-Caller", name, value);
        self.coding = self.coding.with_field(b"Transfer-Encoding", name, value);
        self.close |= asks_to_close(name, value);
        self.expect |= awaits_continue(name, value);
    }
}

// Whether a field asks to close.
fn asks_to_close(name: &[u8], value: &[u8]) -> bool
    ensures { result ≡ (same_word name.now (codes "Connection") && says_close value.now) }
{
    same_word(name, b"Connection") && says_close(value)
}

// Whether a field awaits 100 Continue.
fn awaits_continue(name: &[u8], value: &[u8]) -> bool
    ensures { result ≡ (same_word name.now (codes "Expect") && is_continue value.now) }
{
    same_word(name, b"Expect") && is_continue(value)
}
