//! Short texts that need no memory of their own.
ghost use Rattle.std.specs.Prelude.{◌≡◌, ◌≤◌, ◌+◌, ◌++◌, ◌∷◌, [], true, Some, take, drop, length, nat_eq, refl};
ghost use Rattle.std.specs.Ordering.{nat_cmp};
ghost use Rattle.std.specs.Cmp.{partial_equiv_from_equiv};
ghost use Rattle.std.specs.Cmp.Lexicographic.{pointwise, slice_cmp, nat_list_eq_equiv, nat_list_cmp_total, texts_ties, texts_po};
ghost use Rattle.std.specs.Cmp.Rules.{hashing};
ghost use Rattle.std.proofs.Common.{rules};

use std::cmp::Ordering;
use std::hash::{Hash, Hasher};
use std::marker::Model;
use std::simd::Simd;

/// At most `MAX` bytes, kept in place. What stands behind them is zero, so that equal texts are equal values.
#[derive(Clone, Copy)]
pub struct Padded<const MAX: usize> {
    len: usize,
    bytes: [u8; MAX],
}

impl<const MAX: usize> Model for Padded<MAX> {
    ghost use Rattle.std.specs.Prelude.{◌≡◌, ◌-◌, ◌≤◌, ◌++◌, ℕ, List, length, take, drop, replicate, refl};
    ghost use Rattle.pb_base.specs.Padding.{bytes_back, length_back};

    ghost Value = { List ℕ };

    ghost view = { λ a. take a.len a.bytes };

    ghost invariant = { λ a.
        (a.len ≤ MAX) × (length a.bytes ≡ MAX) × (drop a.len a.bytes ≡ replicate (MAX - a.len) 0) };

    ghost inverse = { λ bytes.
        record { len = length bytes; bytes = bytes ++ replicate (MAX - length bytes) 0 } };

    ghost inverse_ok = { λ a h i. record {
      len = length_back MAX a.len a.bytes h.0 h.1 i;
      bytes = bytes_back MAX a.len a.bytes h.0 h.1 h.2 i;
    } };
}

impl<const MAX: usize> Padded<MAX> {
    /// A copy of these bytes.
    pub fn of(bytes: &[u8]) -> Padded<MAX>
        requires { length bytes.now ≤ MAX }
        ensures { result ≡ bytes.now }
    {
        let mut padded = [0; MAX];
        put_text(&mut padded, bytes);
        Padded {
            len: bytes.len(),
            bytes: padded,
        }
    }

    /// The bytes, without what stands behind them.
    pub fn bytes(&self) -> &[u8]
        ensures { result.now ≡ self.now }
    {
        &self.bytes[..self.len]
    }
}

impl Padded<8> {
    // The bytes and what stands behind them, as one number.
    #[inline(always)]
    pub(crate) fn number(&self) -> u64 {
        u64::from_le_bytes(self.bytes)
    }

    // Whether another text is the same: all its bytes are one number.
    #[inline(always)]
    pub(crate) fn is(&self, other: &Padded<8>) -> bool
        ensures { result ≡ true → self.now ≡ other.now }
    {
        self.len == other.len && is_same_word(&self.bytes, &other.bytes)
    }
}

// Whether two runs of eight bytes are the same.
#[inline(always)]
fn is_same_word(a: &[u8; 8], b: &[u8; 8]) -> bool
    ensures { result ≡ true → a.now ≡ b.now }
{
    u64::from_le_bytes(*a) == u64::from_le_bytes(*b)
}

// Puts bytes at the front. A short text is two copies of a fixed size, which may overlap.
#[inline(always)]
fn put_text(room: &mut [u8], bytes: &[u8])
    requires { length bytes.now ≤ length room.old }
    ensures { room.new ≡ bytes.now ++ drop (length bytes.now) room.old }
{
    let len = bytes.len();
    if len > 16 {
        room[..len].copy_from_slice(bytes);
    } else if len > 8 {
        put_ends::<8>(room, bytes);
    } else if len >= 4 {
        put_ends::<4>(room, bytes);
    } else if len >= 2 {
        put_ends::<2>(room, bytes);
    } else if len == 1 {
        room[0] = bytes[0];
    }
}

// Puts bytes at the front, of which there are at least N, and at most twice as many.
#[inline(always)]
fn put_ends<const N: usize>(room: &mut [u8], bytes: &[u8])
    requires fits { length bytes.now ≤ length room.old }
    requires covers { (N ≤ length bytes.now) × (length bytes.now ≤ N + N) }
    ensures { room.new ≡ bytes.now ++ drop (length bytes.now) room.old }
{
    let last = bytes.len() - N;
    put_first::<N>(room, 0, bytes);
    put_first::<N>(room, last, &bytes[last..]);
}

// Puts the first N bytes at a place, by one load and one store.
#[inline(always)]
fn put_first<const N: usize>(room: &mut [u8], at: usize, bytes: &[u8])
    requires { (N ≤ length bytes.now) × (at + N ≤ length room.old) }
    ensures { room.new ≡ take at room.old ++ (take N bytes.now ++ drop N (drop at room.old)) }
{
    Simd::<u8, N>::from_slice(bytes).copy_to_slice(&mut room[at..]);
}

impl<const MAX: usize> PartialEq for Padded<MAX> {
    ghost eq = { pointwise nat_eq };

    ghost laws = { partial_equiv_from_equiv nat_list_eq_equiv };

    #[inline]
    fn eq(&self, other: &Padded<MAX>) -> bool {
        // Zeros stand behind both, so all bytes can be compared.
        self.len == other.len && self.bytes == other.bytes
    }
}

impl<const MAX: usize> Eq for Padded<MAX> {
    ghost laws = { nat_list_eq_equiv };
}

impl<const MAX: usize> PartialOrd for Padded<MAX> {
    ghost partial_cmp = { λ a b. Some (slice_cmp nat_cmp a b) };

    ghost laws = { texts_po };

    fn partial_cmp(&self, other: &Padded<MAX>) -> Option<Ordering> {
        Some(self.cmp(other))
    }
}

impl<const MAX: usize> Ord for Padded<MAX> {
    ghost cmp = { slice_cmp nat_cmp };

    ghost total = { nat_list_cmp_total };

    ghost matches_partial_cmp = { λ a b. refl };

    ghost matches_eq = { texts_ties };

    fn cmp(&self, other: &Padded<MAX>) -> Ordering {
        self.bytes().cmp(other.bytes())
    }
}

impl<const MAX: usize> Hash for Padded<MAX> {
    ghost hash_input = { λ text. text ∷ [] };

    ghost respects_eq = { Prim.search (hashing, rules) };

    #[inline]
    fn hash<H: Hasher>(&self, state: &mut H) {
        state.write(self.bytes());
    }
}
