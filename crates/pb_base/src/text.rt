//! Texts that are being written.
ghost use Rattle.std.specs.Prelude.{◌≡◌, ◌≤◌, ◌++◌, [], IfOk, OnOk, OnErr, drop, length, take};
ghost use Rattle.std.specs.Fmt.{decimal};

use crate::answer::Memory;
use crate::sequence::{Body, Sequence};
use itoa::Buffer;
use std::alloc::Global;
use std::marker::Model;

/// A text that is being written, piece behind piece. A contract sees its bytes.
#[derive(Drop)]
pub struct Text {
    bytes: Vec<u8>,
}

impl Model for Text {
    ghost use Rattle.std.specs.Prelude.{List, ℕ};

    ghost Value = { List ℕ };

    ghost view = { λ t. t.bytes.items };
}

impl Text {
    /// The text without bytes.
    pub fn new(alloc: Global) -> Text
        ensures { result ≡ [] }
    {
        Text {
            bytes: Vec::new(alloc),
        }
    }

    /// The text without bytes, with room for this many, so that as many are put without a further allocation.
    pub fn with_room(alloc: Global, room: usize) -> Result<Text, Memory>
        ensures { IfOk result (λ t. t ≡ []) }
    {
        let bytes = Vec::with_capacity(alloc, room)?;
        Ok(Text { bytes })
    }

    /// Puts bytes behind the others. On want of memory the text is as before.
    pub fn put(&mut self, piece: &[u8]) -> Result<(), Memory>
        ensures ok { OnOk result (self.new ≡ self.old ++ piece.now) }
        ensures err { OnErr result (self.new ≡ self.old) }
    {
        self.bytes.extend_from_slice(piece)?;
        Ok(())
    }

    /// Puts a number behind the others, in decimal digits. On want of memory the text is as before.
    pub fn put_number(&mut self, number: u64) -> Result<(), Memory>
        ensures ok { OnOk result (self.new ≡ self.old ++ decimal number) }
        ensures err { OnErr result (self.new ≡ self.old) }
    {
        let mut digits = Buffer::new();
        self.put(digits.format(number).as_bytes())
    }

    /// Puts the bytes from this place on in front of those before it. Places are counted from 0.
    pub fn rotate_left(&mut self, place: usize)
        requires { place ≤ length self.old }
        ensures { self.new ≡ drop place self.old ++ take place self.old }
    {
        self.bytes.rotate_left(place);
    }

    /// Takes all bytes away and keeps their room.
    pub fn clear(&mut self)
        ensures { self.new ≡ [] }
    {
        self.bytes.clear();
    }

    /// The bytes of the text so far.
    pub fn bytes(&self) -> &[u8]
        ensures { result.now ≡ self.now }
    {
        &self.bytes
    }

    /// The text as it stands, to be handed on. No byte is copied.
    pub fn into_body(self) -> Body
        ensures { result ≡ self }
    {
        Sequence::of(self.bytes)
    }
}
