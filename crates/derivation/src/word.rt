//! The words of a certificate that are numbers and literals.
ghost use Rattle.std.specs.Prelude.{◌≡◌, ◌<◌, ◌+◌, ◌^◌, IfSome, Some, take};
ghost use Rattle.derivation.specs.Kept.{literal_at, literal_kept, number_kept};
ghost use Rattle.derivation.specs.Pieces.{EndsPiece};
ghost use Rattle.derivation.specs.Reading.{AreLeading};
ghost use Rattle.derivation.specs.Words.{has_number_form};

use clause_pool::Lit;

/// The number that a word is: `0`, or 1 to 20 digits of which the first is not 0. It saturates.
pub(crate) fn number(word: &[u8]) -> Option<u64>
    ensures { result ≡ number_kept word.now }
{
    if !has_number_form(word) {
        return None;
    }
    let mut value: u64 = 0;
    for b in word {
        if !b.is_ascii_digit() {
            return None;
        }
        value = value
            .saturating_mul(10)
            .saturating_add(u64::from(*b - b'0'));
    }
    Some(value)
}

fn has_number_form(word: &[u8]) -> bool
    ensures { result ≡ has_number_form word.now }
{
    match word {
        [] => false,
        [first, rest @ ..] => (*first != b'0' || rest.is_empty()) && rest.len() <= 19,
    }
}

/// The literal that a word is: its sign, then the number of its variable, which saturates.
pub(crate) fn literal(word: &[u8]) -> Option<Lit>
    ensures { result ≡ literal_kept word.now }
{
    let [sign, digits @ ..] = word else {
        return None;
    };
    let positive = *sign == b'+';
    if !positive && *sign != b'-' {
        return None;
    }
    let variable = number(digits)?.min(u64::from(u32::MAX));
    Some(Lit::new(variable as u32, positive))
}

/// A number of at most 19 digits in front of a text, and where it ends.
#[derive(Clone, Copy)]
pub(crate) struct FrontNumber {
    pub(crate) value: u64,
    pub(crate) end: usize,
}

/// The number that the first piece of a text is, where it has at most 19 digits. None says nothing of the piece.
pub(crate) fn front_number(text: &[u8], separator: u8) -> Option<FrontNumber>
    requires { separator < 48 }
    ensures number { IfSome result (λ front. number_kept (take front.end text.now) ≡ Some front.value) }
    ensures end { IfSome result (λ front. EndsPiece separator text.now front.end) }
{
    let front = leading_digits(text);
    if !has_number_form(&text[..front.end]) {
        return None;
    }
    if front.end == text.len() {
        return Some(front);
    }
    if text[front.end] != separator {
        return None;
    }
    Some(front)
}

// The value of the digits in front of a text, of which at most 19 are read, and where they end.
fn leading_digits(text: &[u8]) -> FrontNumber
    ensures { AreLeading text.now result }
{
    let most = text.len().min(19);
    let mut value: u64 = 0;
    let mut end = 0;
    while end < most {
        let byte = text[end];
        if !byte.is_ascii_digit() {
            return FrontNumber { value, end };
        }
        value = 10 * value + u64::from(byte - b'0');
        end += 1;
    }
    FrontNumber { value, end }
}

/// A literal in front of a text, and where it ends.
#[derive(Clone, Copy)]
pub(crate) struct FrontLiteral {
    pub(crate) lit: Lit,
    pub(crate) end: usize,
}

/// The literal that the first piece of a text is, where it has at most 19 digits. None says nothing of the piece.
#[tactic(auto, using(crate::proofs::FrontLaws::ends_signed))]
pub(crate) fn front_literal(text: &[u8], separator: u8) -> Option<FrontLiteral>
    requires { separator < 43 }
    ensures literal { IfSome result (λ front. literal_kept (take front.end text.now) ≡ Some front.lit) }
    ensures end { IfSome result (λ front. EndsPiece separator text.now front.end) }
{
    let [sign, digits @ ..] = text else {
        return None;
    };
    let front = front_number(digits, separator)?;
    if *sign == b'+' {
        return Some(signed(front, true));
    }
    if *sign == b'-' {
        return Some(signed(front, false));
    }
    None
}

// The literal of this sign and the number behind it.
fn signed(front: FrontNumber, positive: bool) -> FrontLiteral
    requires { front.end + 1 < 2 ^ 64 }
    ensures literal { result.lit ≡ literal_at positive front.value }
    ensures end { result.end ≡ front.end + 1 }
{
    let variable = front.value.min(u64::from(u32::MAX));
    FrontLiteral {
        lit: Lit::new(variable as u32, positive),
        end: front.end + 1,
    }
}
