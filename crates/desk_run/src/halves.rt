//! A link of two parts.
ghost use Rattle.std.specs.Prelude.{◌≡◌, ◌≤◌, IfOk, OnOk, OnErr};

use pb_outside::{Ends, Link, OutError, Sink, Source};

/// A source and a sink that are lent together as one link. It is read as the source is, and written as the sink is; when the
/// lending ends, both are as the link left them.
#[derive(Drop)]
pub struct Halves<'s, 'k, S: Source, K: Sink> {
    source: &'s mut S,
    sink: &'k mut K,
}

impl<'s, 'k, S: Source, K: Sink> Halves<'s, 'k, S, K> {
    pub fn new(source: &'s mut S, sink: &'k mut K) -> Halves<'s, 'k, S, K>
        ensures same_source { result.source.ghost_name ≡ source.entry.ghost_name }
        ensures same_sink { result.sink.ghost_name ≡ sink.entry.ghost_name }
        ensures source { result.source.now ≡ source.old }
        ensures sink { result.sink.now ≡ sink.old }
    {
        Halves { source, sink }
    }
}

impl<S: Source, K: Sink> Ends for Halves<'_, '_, S, K> {
    ghost use Rattle.std.specs.Prelude.{[], ◌∷◌};

    ghost input = { λ h. S.input h.source.now };

    ghost output = { λ h. K.output h.sink.now };

    ghost names = { λ h. h.source.ghost_name ∷ h.sink.ghost_name ∷ [] };
}

impl<S: Source, K: Sink> Source for Halves<'_, '_, S, K> {
    fn read(&mut self, into: &mut Vec<u8>, max: usize) -> Result<usize, OutError> {
        self.source.read(into, max)
    }

    fn read_faults(&self) -> u64 {
        self.source.read_faults()
    }
}

impl<S: Source, K: Sink> Sink for Halves<'_, '_, S, K> {
    fn write(&mut self, piece: &[u8]) -> Result<(), OutError> {
        self.sink.write(piece)
    }

    fn write_both(&mut self, first: &[u8], second: &[u8]) -> Result<(), OutError> {
        self.sink.write_both(first, second)
    }

    fn write_faults(&self) -> u64 {
        self.sink.write_faults()
    }
}

impl<S: Source, K: Sink> Link for Halves<'_, '_, S, K> {}
