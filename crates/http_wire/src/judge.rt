//! What the parts of a head come to.
ghost use Rattle.std.specs.Prelude.{◌≡◌, ◌≤◌, ℕ, List, IfOk, IfSome, true};
ghost use Rattle.std.specs.List.{list_all};
ghost use Rattle.pb_base.specs.Digits.{is_digit};
ghost use Rattle.http_wire.specs.Few.{IsFew};
ghost use Rattle.http_wire.specs.Known.{AreKnown};
ghost use Rattle.http_wire.specs.Fields.{is_digits, length_by, body_length, one_caller};
ghost use Rattle.http_wire.specs.Reading.{lacks_host, is_coded, kept_of, judge, HasSmallBody};
ghost use Rattle.http_wire.specs.Number.{number_up_to};
ghost use Rattle.pb_base.specs.declared.limits.TheConstants.{MOST_TEXT_BYTES};

use crate::few::Few;
use crate::head::{Head, HeadStep};
use crate::known::KnownFields;
use crate::parts::Parts;
use crate::refusal::Refusal;
use pb_base::limits::MOST_TEXT_BYTES;
use pb_base::{Id, Memory, Sequence};
use std::alloc::Global;

/// The head, or why it is refused.
pub fn judge(alloc: Global, parts: &Parts) -> Result<HeadStep, Memory>
    ensures step { IfOk result (λ step. step ≡ judge parts.now) }
    ensures small { IfOk result HasSmallBody }
{
    let known = parts.fields.known();
    if lacks_host(parts, &known) {
        return Ok(HeadStep::Bad(Refusal::Malformed));
    }
    if is_coded(parts, &known) {
        return Ok(HeadStep::Bad(Refusal::Coded));
    }
    match body_length(known.length) {
        Ok(length) => Ok(HeadStep::Head(kept_of(alloc, parts, &known, length)?)),
        Err(refusal) => Ok(HeadStep::Bad(refusal)),
    }
}

// Whether the one Host field is missing that HTTP/1.1 asks for.
fn lacks_host(parts: &Parts, known: &KnownFields) -> bool
    requires { AreKnown parts.now.fields known.now }
    ensures { result ≡ lacks_host parts.now }
{
    parts.minor == 1 && !matches!(known.host, Few::One(_))
}

// Whether the body is in pieces of another coding.
fn is_coded(parts: &Parts, known: &KnownFields) -> bool
    requires { AreKnown parts.now.fields known.now }
    ensures { result ≡ is_coded parts.now }
{
    !matches!(known.coding, Few::None)
}

// The length of the body, or why the head is refused.
fn body_length(length: Few) -> Result<u32, Refusal>
    ensures length { (values : List (List ℕ)) → IsFew values length.entry → result ≡ body_length values }
    ensures small { IfOk result (λ length. length ≤ MOST_TEXT_BYTES) }
{
    match length {
        Few::None => Ok(0),
        Few::One(value) => length_by(value),
        Few::More => Err(Refusal::Malformed),
    }
}

// The number of bytes that a value of Content-Length gives.
fn length_by(value: &[u8]) -> Result<u32, Refusal>
    ensures length { result ≡ length_by value.now }
    ensures small { IfOk result (λ length. length ≤ MOST_TEXT_BYTES) }
{
    if !is_digits(value) {
        return Err(Refusal::Malformed);
    }
    number_up_to(value, MOST_TEXT_BYTES as u32).ok_or(Refusal::LongBody)
}

fn is_digits(value: &[u8]) -> bool
    ensures { result ≡ is_digits value.now }
{
    !value.is_empty() && are_digits(value)
}

fn are_digits(value: &[u8]) -> bool
    ensures { result ≡ list_all is_digit value.now }
{
    value.iter().all(|b| b.is_ascii_digit())
}

// The number that the digits write, unless it is above the limit.
fn number_up_to(digits: &[u8], limit: u32) -> Option<u32>
    requires digits { list_all is_digit digits.now ≡ true }
    requires small { limit ≤ MOST_TEXT_BYTES }
    ensures number { result ≡ number_up_to limit digits.now }
    ensures small { IfSome result (λ number. number ≤ limit) }
{
    let mut value = 0;
    for digit in digits {
        value = 10 * value + u32::from(*digit - b'0');
        if value > limit {
            return None;
        }
    }
    Some(value)
}

// What is kept of a head whose body has this length.
fn kept_of(alloc: Global, parts: &Parts, known: &KnownFields, length: u32) -> Result<Head, Memory>
    requires { AreKnown parts.now.fields known.now }
    ensures { IfOk result (λ head. head ≡ kept_of parts.now length) }
{
    Ok(Head {
        method: Sequence::of(Vec::from_slice(alloc, parts.method)?),
        target: Sequence::of(Vec::from_slice(alloc, parts.target)?),
        version: parts.minor,
        close: parts.minor == 0 || known.close,
        length,
        expects: parts.minor == 1 && length > 0 && known.expect,
        caller: one_caller(known.caller),
    })
}

fn one_caller(caller: Few) -> Option<Id>
    ensures { (values : List (List ℕ)) → IsFew values caller.entry → result ≡ one_caller values }
{
    match caller {
        Few::One(value) => Id::of(value),
        _ => None,
    }
}
