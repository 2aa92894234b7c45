//! Reading the bytes of a head.
ghost use Rattle.std.specs.Prelude.{◌≡◌, ◌≤◌, ℕ, List, IfOk, IfSome, IsSomeAnd, length, count_by};
ghost use Rattle.httparse.specs.Grammar.{RequestHead, ReadsRequest};
ghost use Rattle.httparse.specs.Spans.{IsRequestAt, IsRequestWithin};
ghost use Rattle.http_wire.specs.Front.{is_line_feed, skipped_bytes};
ghost use Rattle.http_wire.specs.FirstHeads.{IsFirstHead};
ghost use Rattle.http_wire.specs.Parts.{parts_of};
ghost use Rattle.http_wire.specs.Reading.{field_lines, judge, ReadsBlock, HasSmallBody};

use crate::fields::Fields;
use crate::head::HeadStep;
use crate::judge::judge;
use crate::limits::MOST_FIELD_LINES;
use crate::parts::Parts;
use crate::refusal::Refusal;
use httparse::Status;
use httparse::spans::{EMPTY_HEADER_SPAN, HeaderSpan, RequestSpans, parse_request};
use pb_base::Memory;
use std::alloc::Global;

// The most fields of a head that is read before it is searched for its end.
const USUAL_FIELDS: usize = 16;

/// What the bytes come to that a head is made of, and how many these are.
#[derive(Drop)]
pub struct FirstHead {
    pub step: HeadStep,
    pub length: usize,
}

/// The head in front of the bytes, where one of the grammar stands there that has no more fields than usual. It is found
/// without a search for its end.
pub fn first_head(alloc: Global, bytes: &[u8]) -> Result<Option<FirstHead>, Memory>
    requires { skipped_bytes bytes.now ≡ 0 }
    ensures head { IfOk result (λ found. IfSome found (IsFirstHead bytes.now)) }
    ensures within { IfOk result (λ found. IfSome found (λ first. first.length ≤ length bytes.now)) }
    ensures small { IfOk result (λ found. IfSome found (λ first. HasSmallBody first.step)) }
{
    let mut spans = [EMPTY_HEADER_SPAN; USUAL_FIELDS];
    let Some(head) = front_head(bytes, &mut spans) else {
        return Ok(None);
    };
    Ok(Some(FirstHead {
        step: judged(alloc, bytes, &spans, head)?,
        length: head.len,
    }))
}

/// The head that the bytes are, or why they are refused.
pub fn read_block(alloc: Global, block: &[u8]) -> Result<HeadStep, Memory>
    ensures step { IfOk result (ReadsBlock block.now) }
    ensures small { IfOk result HasSmallBody }
{
    if field_lines(block) > MOST_FIELD_LINES {
        return Ok(HeadStep::Bad(Refusal::LongHead));
    }
    let mut spans = [EMPTY_HEADER_SPAN; MOST_FIELD_LINES];
    match front_head(block, &mut spans) {
        Some(head) if head.len == block.len() => judged(alloc, block, &spans, head),
        _ => Ok(HeadStep::Bad(Refusal::Malformed)),
    }
}

// What the head comes to whose parts lie there.
fn judged(
    alloc: Global,
    bytes: &[u8],
    spans: &[HeaderSpan],
    head: RequestSpans,
) -> Result<HeadStep, Memory>
    requires { IsRequestWithin bytes.now spans.now head }
    ensures step { IfOk result (λ step. (h : RequestHead) → IsRequestAt bytes.now spans.now head h
        → step ≡ judge (parts_of h)) }
    ensures small { IfOk result HasSmallBody }
{
    let parts = Parts {
        method: head.method.of(bytes),
        target: head.path.of(bytes),
        minor: head.version,
        fields: Fields::of(bytes, &spans[..head.headers]),
    };
    judge(alloc, &parts)
}

// The lines between the request line and the empty line.
fn field_lines(block: &[u8]) -> usize
    ensures { result ≡ field_lines block.now }
{
    line_feeds(block).saturating_sub(2)
}

fn line_feeds(block: &[u8]) -> usize
    ensures { result ≡ count_by is_line_feed block.now }
{
    let mut count = 0;
    for b in block {
        count += usize::from(*b == b'\n');
    }
    count
}

// Where the parts of the head lie that stands in front of the bytes, if there is one with no more fields than there is
// room.
fn front_head(bytes: &[u8], spans: &mut [HeaderSpan]) -> Option<RequestSpans>
    ensures within { IfSome result (IsRequestWithin bytes.now spans.new) }
    ensures head { IfSome result (λ found. (h : RequestHead) × IsRequestAt bytes.now spans.new found h) }
    ensures found { (h : RequestHead) (rest : List ℕ) → ReadsRequest bytes.now h rest
        → length h.fields ≤ length spans.old
        → IsSomeAnd result (λ found. IsRequestAt bytes.now spans.new found h) }
    ensures room { length spans.new ≡ length spans.old }
{
    match parse_request(bytes, spans) {
        Ok(Status::Complete(head)) => Some(head),
        _ => None,
    }
}
