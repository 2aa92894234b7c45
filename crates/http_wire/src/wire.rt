//! Messages from a source, one after the other.
ghost use Rattle.std.specs.Prelude.{◌≡◌, ◌+◌, ◌≤◌, [], false, Ok, Some, IfOk, OnOk, OnErr, IfSome, IfNone, length, take, drop};
ghost use Rattle.pb_base.specs.Answers.{IfRefused};
ghost use Rattle.pb_outside.specs.Faults.{IsLater};
ghost use Rattle.http_wire.specs.FirstHeads.{ReadsHeld};
ghost use Rattle.http_wire.specs.Fronts.{HasFront, IsHeld};
ghost use Rattle.http_wire.specs.Items.{behind, ReadsFront, ReadsHead, ReadsBody, IsWhole};
ghost use Rattle.http_wire.specs.Reading.{HasSmallBody};
ghost use Rattle.http_wire.specs.Stream.{ReadFails, StreamStep, SameStream};
ghost use Rattle.http_wire.specs.declared.limits.TheConstants.{MOST_HEAD_BYTES};

use crate::fault::ReadFault;
use crate::front::Front;
use crate::front_reader::read_front;
use crate::head::{Head, HeadStep};
use crate::limits::MOST_HEAD_BYTES;
use crate::message::{BodyStep, Message};
use crate::reading::{first_head, read_block};
use crate::search::{Search, line_bytes};
use crate::source::{read_more, read_until};
use pb_base::{Fail, Memory, Sequence};
use pb_outside::Source;
use std::alloc::Global;
use std::marker::Model;

/// The bytes of a source that were read and are not used yet. They are no more than a head may have. A contract sees
/// them as a list; together with what is left of the source they are the stream.
#[derive(Drop)]
pub struct Wire {
    alloc: Global,
    bytes: Vec<u8>,
    used: usize,
}

impl Model for Wire {
    ghost use Rattle.std.specs.Prelude.{◌≤◌, ℕ, List, drop, vec_len};

    ghost Value = { List ℕ };

    ghost view = { λ w. drop w.used w.bytes.items };

    ghost invariant = { λ w. (w.used ≤ vec_len w.bytes) × (vec_len w.bytes ≤ 16384) };
}

impl Wire {
    /// Nothing was read yet. This takes no memory.
    pub fn new(alloc: Global) -> Wire
        ensures { result ≡ [] }
    {
        Wire {
            alloc,
            bytes: Vec::new(alloc),
            used: 0,
        }
    }

    /// What comes next, where a message may begin: a head, the end of the stream, or what is refused. What is refused
    /// is not used up, and no error loses a byte.
    pub fn next_head<S: Source>(&mut self, source: &mut S) -> Result<HeadStep, Fail<ReadFault>>
        ensures next { let left = (S.input source.old).left in
            let left' = (S.input source.new).left in
            IfOk result (λ step. StreamStep (ReadsHead step) self.old left self.new left') }
        ensures lost { let left = (S.input source.old).left in
            let left' = (S.input source.new).left in
            OnErr result (StreamStep SameStream self.old left self.new left') }
        ensures small_body { IfOk result HasSmallBody }
        ensures small { length self.new ≤ MOST_HEAD_BYTES }
        ensures stays { OnOk result ((S.input source.new).faults.count ≡ (S.input source.old).faults.count) }
        ensures cause { IfRefused result (ReadFails (S.input source.old).faults (S.input source.new).faults) }
        ensures later { IsLater (S.input source.old).faults (S.input source.new).faults }
        ensures other_end { S.output source.new ≡ S.output source.old }
        ensures same_names { S.names source.new ≡ S.names source.old }
    {
        if !self.fill(source)? {
            return Ok(HeadStep::End);
        }
        if let Some(step) = self.usual_head()? {
            return Ok(step);
        }
        let front = self.front(source)?;
        Ok(self.step(front)?)
    }

    // Reads once where nothing is held, and answers whether something is held then.
    fn fill<S: Source>(&mut self, source: &mut S) -> Result<bool, Fail<ReadFault>>
        ensures stream { let left = (S.input source.old).left in
            let left' = (S.input source.new).left in
            StreamStep SameStream self.old left self.new left' }
        ensures ended { let left' = (S.input source.new).left in
            result ≡ Ok false → (self.new ≡ []) × IfSome (S.input source.old).left (λ _. left' ≡ Some []) }
        ensures small { length self.new ≤ MOST_HEAD_BYTES }
        ensures stays { OnOk result ((S.input source.new).faults.count ≡ (S.input source.old).faults.count) }
        ensures cause { IfRefused result (ReadFails (S.input source.old).faults (S.input source.new).faults) }
        ensures later { IsLater (S.input source.old).faults (S.input source.new).faults }
        ensures other_end { S.output source.new ≡ S.output source.old }
        ensures same_names { S.names source.new ≡ S.names source.old }
    {
        if self.used < self.bytes.len() {
            return Ok(true);
        }
        self.bytes.clear();
        self.used = 0;
        Ok(read_more(&mut self.bytes, source, MOST_HEAD_BYTES)? > 0)
    }

    // The head that comes next, where all of it is held and it has no more fields than usual. It is used up.
    fn usual_head(&mut self) -> Result<Option<HeadStep>, Memory>
        ensures step { IfOk result (λ found. IfSome found (λ step. ReadsHeld step self.old self.new)) }
        ensures none { IfOk result (λ found. IfNone found (self.new ≡ self.old)) }
        ensures lost { OnErr result (self.new ≡ self.old) }
        ensures small_body { IfOk result (λ found. IfSome found HasSmallBody) }
        ensures small { length self.new ≤ MOST_HEAD_BYTES }
    {
        let held = self.held();
        let skipped = line_bytes(held);
        let Some(first) = first_head(self.alloc, &held[skipped..])? else {
            return Ok(None);
        };
        self.pass(&first.step, skipped + first.length);
        Ok(Some(first.step))
    }

    // What that comes to which stands at the front. It is used up if it is a head.
    fn step(&mut self, front: Front) -> Result<HeadStep, Memory>
        requires { IsHeld self.old front }
        ensures step { IfOk result (λ step. ReadsFront front step self.old self.new) }
        ensures lost { OnErr result (self.new ≡ self.old) }
        ensures small_body { IfOk result HasSmallBody }
        ensures small { length self.new ≤ length self.old }
    {
        match front {
            Front::End => {
                self.used = self.bytes.len();
                Ok(HeadStep::End)
            }
            Front::Bad(refusal) => Ok(HeadStep::Bad(refusal)),
            Front::Block { skipped, length } => {
                let block = &self.held()[skipped..skipped + length];
                let step = read_block(self.alloc, block)?;
                self.pass(&step, skipped + length);
                Ok(step)
            }
        }
    }

    // Uses up the bytes of a head, so many. What is refused stays.
    fn pass(&mut self, step: &HeadStep, count: usize)
        requires { count ≤ length self.old }
        ensures { self.new ≡ behind step.now count self.old }
    {
        if matches!(step, HeadStep::Head(_)) {
            self.used += count;
        }
    }

    // What stands at the front of the stream.
    fn front<S: Source>(&mut self, source: &mut S) -> Result<Front, Fail<ReadFault>>
        ensures front { let left = (S.input source.old).left in
            let left' = (S.input source.new).left in
            IfOk result (λ found. StreamStep (HasFront found) self.old left self.new left') }
        ensures held { IfOk result (IsHeld self.new) }
        ensures small { length self.new ≤ MOST_HEAD_BYTES }
        ensures ended { let left' = (S.input source.new).left in
            result ≡ Ok Front.End → IfSome (S.input source.old).left (λ _. left' ≡ Some []) }
        ensures lost { let left = (S.input source.old).left in
            let left' = (S.input source.new).left in
            OnErr result (StreamStep SameStream self.old left self.new left') }
        ensures stays { OnOk result ((S.input source.new).faults.count ≡ (S.input source.old).faults.count) }
        ensures cause { IfRefused result (ReadFails (S.input source.old).faults (S.input source.new).faults) }
        ensures later { IsLater (S.input source.old).faults (S.input source.new).faults }
        ensures other_end { S.output source.new ≡ S.output source.old }
        ensures same_names { S.names source.new ≡ S.names source.old }
    {
        let mut search = Search::new();
        if let Some(front) = search.look(self.held()) {
            return Ok(front);
        }
        drop_front(&mut self.bytes, self.used);
        self.used = 0;
        read_front(&mut self.bytes, search, source)
    }

    /// The message with its body, which comes behind its head, or that the stream ends inside it.
    pub fn body<S: Source>(
        &mut self,
        source: &mut S,
        head: Head,
    ) -> Result<BodyStep, Fail<ReadFault>>
        ensures next { let left = (S.input source.old).left in
            let left' = (S.input source.new).left in
            IfOk result (λ step. StreamStep (ReadsBody head step) self.old left self.new left') }
        ensures whole { IfOk result (IsWhole head) }
        ensures small { length self.new ≤ length self.old }
        ensures stays { OnOk result ((S.input source.new).faults.count ≡ (S.input source.old).faults.count) }
        ensures cause { IfRefused result (ReadFails (S.input source.old).faults (S.input source.new).faults) }
        ensures later { IsLater (S.input source.old).faults (S.input source.new).faults }
        ensures other_end { S.output source.new ≡ S.output source.old }
        ensures same_names { S.names source.new ≡ S.names source.old }
    {
        let length = head.length as usize;
        let mut body = self.take_front(length)?;
        if !read_until(&mut body, source, length)? {
            return Ok(BodyStep::Cut);
        }
        Ok(BodyStep::Message(Message {
            head,
            body: Sequence::of(body),
        }))
    }

    // As many bytes as are held, `most` of them at most, in a vector with room for `most` bytes.
    fn take_front(&mut self, most: usize) -> Result<Vec<u8>, Memory>
        ensures taken { IfOk result (λ front. front.items ≡ take most self.old) }
        ensures rest { OnOk result (self.new ≡ drop most self.old) }
        ensures small { length self.new ≤ length self.old }
    {
        let mut front = Vec::with_capacity(self.alloc, most)?;
        let count = self.held().len().min(most);
        front.extend_from_slice(&self.held()[..count])?;
        self.used += count;
        Ok(front)
    }

    // The bytes that are held.
    fn held(&self) -> &[u8]
        ensures value { result.now ≡ self.now }
        ensures small { length self.now ≤ MOST_HEAD_BYTES }
    {
        &self.bytes[self.used..]
    }
}

// Drops so many bytes in front.
fn drop_front(bytes: &mut Vec<u8>, count: usize)
    requires { count ≤ length bytes.old.items }
    ensures { bytes.new.items ≡ drop count bytes.old.items }
{
    let rest = bytes.len() - count;
    bytes.copy_within(count.., 0);
    bytes.truncate(rest);
}
