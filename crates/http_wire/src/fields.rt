//! The fields of a head, as they lie in its block.
ghost use Rattle.std.specs.Prelude.{◌≡◌, length, map, All};
ghost use Rattle.httparse.specs.Spans.{header_bytes, IsHeaderWithin};
ghost use Rattle.http_wire.specs.Known.{AreKnown};

use crate::known::KnownFields;
use httparse::spans::HeaderSpan;
use std::marker::Model;

/// The fields of a head, as they lie in its block. A contract sees the list of their names and values.
#[derive(Drop)]
pub struct Fields<'a> {
    block: &'a [u8],
    spans: &'a [HeaderSpan],
}

impl<'a> Model for Fields<'a> {
    ghost use Rattle.std.specs.Prelude.{ℕ, List, length, map, All};
    ghost use Rattle.httparse.specs.Spans.{header_bytes, IsHeaderWithin};
    ghost use Rattle.http_wire.specs.Fields.{Field};

    ghost Value = { List Field };

    ghost view = { λ f. map (header_bytes f.block.now) f.spans.now };

    ghost invariant = { λ f. All (IsHeaderWithin (length f.block.now)) f.spans.now };
}

impl<'a> Fields<'a> {
    pub fn of(block: &'a [u8], spans: &'a [HeaderSpan]) -> Fields<'a>
        requires { All (IsHeaderWithin (length block.now)) spans.now }
        ensures { result ≡ map (header_bytes block.now) spans.now }
    {
        Fields { block, spans }
    }

    /// What they say, as far as the reader knows them.
    pub fn known(&self) -> KnownFields<'a>
        ensures { AreKnown self.now result }
    {
        let mut known = KnownFields::none();
        for span in self.spans {
            known.put(span.name.of(self.block), span.value.of(self.block));
        }
        known
    }
}
