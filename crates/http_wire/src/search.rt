//! The search for the end of a head.
ghost use Rattle.std.specs.Prelude.{◌≡◌, ◌≢◌, ◌<◌, ◌≤◌, ◌-◌, IfSome, IfNone, None, length, take, drop};
ghost use Rattle.http_wire.specs.Front.{skipped_bytes, block_length, front};
ghost use Rattle.http_wire.specs.Fronts.{IsHeld};
ghost use Rattle.http_wire.specs.Search.{IsSearched, IsFront};
ghost use Rattle.http_wire.specs.declared.limits.TheConstants.{MOST_HEAD_BYTES};

use crate::block::block_length_from;
use crate::front::Front;
use crate::limits::MOST_HEAD_BYTES;
use crate::refusal::Refusal;

/// How far the bytes that are held were searched for the end of a head. No byte is looked at again when more are there.
#[derive(Clone, Copy)]
pub struct Search {
    /// How many line ends stand in front, in bytes.
    pub skipped: usize,
    /// How many bytes were searched.
    pub seen: usize,
}

impl Search {
    pub fn new() -> Search
        ensures skipped { result.skipped ≡ 0 }
        ensures seen { result.seen ≡ 0 }
    {
        Search {
            skipped: 0,
            seen: 0,
        }
    }

    /// Searches what is held and was not seen so far. It gives what stands at the front, if that is known by now.
    pub fn look(&mut self, held: &[u8]) -> Option<Front>
        requires searched { IsSearched self.old.skipped self.old.seen held.now }
        requires small { length held.now ≤ MOST_HEAD_BYTES }
        ensures found { IfSome result (IsFront held.now) }
        ensures held { IfSome result (IsHeld held.now) }
        ensures more { IfSome result (λ found. found ≢ Front.End) }
        ensures searched { IfNone result (IsSearched self.new.skipped self.new.seen held.now) }
        ensures seen { self.new.seen ≡ length held.now }
        ensures short { IfNone result (length held.now < MOST_HEAD_BYTES) }
    {
        let skipped = self.skipped_in(held);
        let behind = self.seen.saturating_sub(skipped);
        *self = Search {
            skipped,
            seen: held.len(),
        };
        match block_length_from(&held[skipped..], behind) {
            Some(length) => Some(Front::Block { skipped, length }),
            None if held.len() == MOST_HEAD_BYTES => Some(Front::Bad(Refusal::LongHead)),
            None => None,
        }
    }

    // How many line ends stand in front of what is held, in bytes.
    fn skipped_in(self, held: &[u8]) -> usize
        requires { IsSearched self.skipped self.seen held.now }
        ensures skipped { result ≡ skipped_bytes held.now }
        ensures within { result ≤ length held.now }
        ensures no_end { block_length (take (self.seen - result) (drop result held.now)) ≡ None }
    {
        if self.skipped < self.seen {
            self.skipped
        } else {
            self.skipped + line_bytes(&held[self.seen..])
        }
    }

    /// What stands at the front where the stream ends behind what is held.
    pub fn at_end(self, held: &[u8]) -> Front
        requires searched { IsSearched self.skipped self.seen held.now }
        requires all { self.seen ≡ length held.now }
        requires short { length held.now < MOST_HEAD_BYTES }
        ensures front { result ≡ front held.now }
        ensures held { IsHeld held.now result }
    {
        if self.skipped == held.len() {
            Front::End
        } else {
            Front::Bad(Refusal::Malformed)
        }
    }
}

/// How many CR and LF bytes stand in front.
pub fn line_bytes(bytes: &[u8]) -> usize
    ensures skipped { result ≡ skipped_bytes bytes.now }
    ensures within { result ≤ length bytes.now }
{
    let mut count = 0;
    while count < bytes.len() && (bytes[count] == b'\r' || bytes[count] == b'\n') {
        count += 1;
    }
    count
}
