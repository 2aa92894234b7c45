//! The names of a book's things, and the names of parts.
ghost use Rattle.std.specs.Prelude.{◌≡◌, ◌||◌, IfSome, IfNone, true, false, nat_eq, refl, [], ◌∷◌};
ghost use Rattle.std.specs.Cmp.Lexicographic.{pointwise, on_texts_equal, nat_list_eq_equiv};
ghost use Rattle.std.specs.Cmp.{partial_equiv_from_equiv};
ghost use Rattle.std.specs.Cmp.Rules.{hashing};
ghost use Rattle.std.proofs.Common.{rules};
ghost use Rattle.pb_base.specs.Names.{is_name, is_part, is_code_name, is_word, is_name_byte, same_name, true_word, false_word};
ghost use Rattle.std.specs.List.{list_all};

use crate::padded::Padded;
use std::hash::{Hash, Hasher};
use std::marker::Model;

/// The name of a book, a rule, a module, a position, a variant, a draft or a caller: 1 to 8 bytes of A to Z and 0 to 9.
#[derive(Clone, Copy, PartialEq, Eq, PartialOrd, Ord, Hash)]
pub struct Id(Padded<8>);

impl Model for Id {
    ghost use Rattle.std.specs.Prelude.{◌≡◌, List, ℕ, true};
    ghost use Rattle.pb_base.specs.Names.{is_name};

    ghost Value = { List ℕ };

    ghost view = { λ a. a.0 };

    ghost invariant = { λ a. is_name a.0 ≡ true };

    ghost inverse = { λ bytes. record { 0 = bytes } };
}

impl Id {
    /// The name of these bytes, or None where they are no name.
    pub fn of(bytes: &[u8]) -> Option<Id>
        ensures name { IfSome result (λ id. (id ≡ bytes.now) × (is_name bytes.now ≡ true)) }
        ensures none { IfNone result (is_name bytes.now ≡ false) }
    {
        if is_word(bytes, 8) {
            Some(Id(Padded::of(bytes)))
        } else {
            None
        }
    }

    /// The bytes of the name.
    pub fn bytes(&self) -> &[u8]
        ensures value { result.now ≡ self.now }
        ensures form { is_name self.now ≡ true }
    {
        self.0.bytes()
    }
}

/// The name of a code: an `Id` other than TRUE and FALSE, which are the constants of a rule.
#[derive(Clone, Copy, PartialEq, Eq, Hash)]
pub struct CodeName(Padded<8>);

impl Model for CodeName {
    ghost use Rattle.std.specs.Prelude.{◌≡◌, List, ℕ, true};
    ghost use Rattle.pb_base.specs.Names.{is_code_name};

    ghost Value = { List ℕ };

    ghost view = { λ a. a.0 };

    ghost invariant = { λ a. is_code_name a.0 ≡ true };

    ghost inverse = { λ bytes. record { 0 = bytes } };
}

impl CodeName {
    /// The name of these bytes, or None where they are no name.
    pub fn of(bytes: &[u8]) -> Option<CodeName>
        ensures name { IfSome result (λ name. (name ≡ bytes.now) × (is_code_name bytes.now ≡ true)) }
        ensures none { IfNone result (is_code_name bytes.now ≡ false) }
    {
        if is_word(bytes, 8) {
            CodeName::of_word(bytes)
        } else {
            None
        }
    }

    /// The name of a word, which has only bytes of A to Z and 0 to 9, or None where it is no name.
    pub fn of_word(word: &[u8]) -> Option<CodeName>
        requires { list_all is_name_byte word.now ≡ true }
        ensures name { IfSome result (λ name. (name ≡ word.now) × (is_code_name word.now ≡ true)) }
        ensures none { IfNone result (is_code_name word.now ≡ false) }
    {
        if word.is_empty() || word.len() > 8 || is_constant(word) {
            return None;
        }
        Some(CodeName(Padded::of(word)))
    }

    /// The bytes of the name.
    pub fn bytes(&self) -> &[u8]
        ensures value { result.now ≡ self.now }
        ensures form { is_code_name self.now ≡ true }
    {
        self.0.bytes()
    }

    // A number that is made of the bytes.
    #[inline(always)]
    pub(crate) fn number(&self) -> u64 {
        self.0.number()
    }

    // Whether another name is the same.
    #[inline(always)]
    pub(crate) fn is(&self, other: &CodeName) -> bool
        ensures { result ≡ true → self.now ≡ other.now }
    {
        self.0.is(&other.0)
    }

    // What is known of every name of a code; the call does nothing.
    pub(crate) fn form_law(&self)
        ensures { is_code_name self.now ≡ true }
    {
        let _bytes = &self.0;
    }
}

/// The number of a part: 1 to 16 bytes of A to Z and 0 to 9.
#[derive(Clone, Copy, PartialEq, Eq, Hash)]
pub struct Part(Padded<16>);

impl Model for Part {
    ghost use Rattle.std.specs.Prelude.{◌≡◌, List, ℕ, true};
    ghost use Rattle.pb_base.specs.Names.{is_part};

    ghost Value = { List ℕ };

    ghost view = { λ a. a.0 };

    ghost invariant = { λ a. is_part a.0 ≡ true };

    ghost inverse = { λ bytes. record { 0 = bytes } };
}

impl Part {
    /// The part number of these bytes, or None where they are none.
    pub fn of(bytes: &[u8]) -> Option<Part>
        ensures part { IfSome result (λ part. (part ≡ bytes.now) × (is_part bytes.now ≡ true)) }
        ensures none { IfNone result (is_part bytes.now ≡ false) }
    {
        if is_word(bytes, 16) {
            Some(Part(Padded::of(bytes)))
        } else {
            None
        }
    }

    /// The bytes of the part number.
    pub fn bytes(&self) -> &[u8]
        ensures value { result.now ≡ self.now }
        ensures form { is_part self.now ≡ true }
    {
        self.0.bytes()
    }
}

// Whether the bytes are a constant of rules.
fn is_constant(bytes: &[u8]) -> bool
    ensures { result ≡ (same_name bytes.now true_word || same_name bytes.now false_word) }
{
    match bytes {
        [b'T', b'R', b'U', b'E'] => true,
        [b'F', b'A', b'L', b'S', b'E'] => true,
        _ => false,
    }
}

// Whether the bytes are 1 to `longest` bytes of A to Z and 0 to 9.
fn is_word(bytes: &[u8], longest: usize) -> bool
    ensures { result ≡ is_word longest bytes.now }
{
    if bytes.is_empty() || bytes.len() > longest {
        return false;
    }
    are_name_bytes(bytes)
}

fn are_name_bytes(bytes: &[u8]) -> bool
    ensures { result ≡ list_all is_name_byte bytes.now }
{
    bytes.iter().all(|b| is_name_byte(*b))
}

/// Whether the byte is one of A to Z and 0 to 9.
#[inline(always)]
pub fn is_name_byte(b: u8) -> bool
    ensures { result ≡ is_name_byte b }
{
    NAME_BYTES[b as usize]
}

// The same of each byte in turn: a look into a table is cheaper than the comparisons.
const NAME_BYTES: [bool; 256] = [
    false, false, false, false, false, false, false, false, false, false, false, false, false,
    false, false, false, false, false, false, false, false, false, false, false, false, false,
    false, false, false, false, false, false, false, false, false, false, false, false, false,
    false, false, false, false, false, false, false, false, false, true, true, true, true, true,
    true, true, true, true, true, false, false, false, false, false, false, false, true, true,
    true, true, true, true, true, true, true, true, true, true, true, true, true, true, true, true,
    true, true, true, true, true, true, true, true, false, false, false, false, false, false,
    false, false, false, false, false, false, false, false, false, false, false, false, false,
    false, false, false, false, false, false, false, false, false, false, false, false, false,
    false, false, false, false, false, false, false, false, false, false, false, false, false,
    false, false, false, false, false, false, false, false, false, false, false, false, false,
    false, false, false, false, false, false, false, false, false, false, false, false, false,
    false, false, false, false, false, false, false, false, false, false, false, false, false,
    false, false, false, false, false, false, false, false, false, false, false, false, false,
    false, false, false, false, false, false, false, false, false, false, false, false, false,
    false, false, false, false, false, false, false, false, false, false, false, false, false,
    false, false, false, false, false, false, false, false, false, false, false, false, false,
    false, false, false, false, false, false, false, false, false, false, false, false, false,
    false, false, false, false, false, false, false, false, false, false, false, false, false,
    false, false, false,
];
