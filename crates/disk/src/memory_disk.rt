//! A disk in memory.
ghost use Rattle.std.specs.Prelude.{◌≡◌, ◌≢◌, ◌<◌, ◌≤◌, ◌+◌, ◌↔◌, nat_lt, true, false, List, ℕ, Some, Err, [], ◌∷◌, ◌++◌, length, take, replicate, vec_len, vec_capacity, IfOk, OnOk, OnErr};
ghost use Rattle.std.specs.Option.{option_map};
ghost use Rattle.pb_outside.specs.Faults.{Rose, raised};
ghost use Rattle.disk.specs.Disk.{overwritten, Torn, Overwrites, IsCut, IsCutOrNot, WhereTold, Becomes, Follows, CountsFaults};
ghost use Rattle.disk.specs.Calls.{dones, total, IsQuiet, quiet};
ghost use Rattle.disk.specs.Tape.{Wrote, TriedWrite, Cut, TriedCut, Synced, TriedSync, content_of, AreWithin, BeginsWithin, left_now, content_told, may_be_left, may_be_synced, TakesTime, is_stopped, has_stopped, is_due, is_tried, IsRecorded, has_room, GoesOn};

use crate::Disk;
use pb_base::Memory;
use pb_outside::{FaultPlan, OutError};
use std::alloc::{AllocError, Global};
use std::marker::Model;
use std::mem;

// What a call came to.
#[derive(Clone, Copy)]
enum Call {
    Wrote { at: u64, len: u64 },
    TriedWrite { at: u64, len: u64 },
    Cut(u64),
    TriedCut(u64),
    Synced,
    TriedSync,
}

/// A file in memory, with chosen calls that fail, and one in which the disk stops. It tells all. A call that fails
/// changes no byte of the file, but a stop may then leave it done in part. What was written before a sync that failed may be
/// lost, though a read still gives it.
#[derive(Drop)]
pub struct MemoryDisk {
    first: Vec<u8>,
    content: Vec<u8>,
    // Where the content is put together anew.
    spare: Vec<u8>,
    calls: Vec<Call>,
    // The bytes of all writes that were made, one behind the other.
    written: Vec<u8>,
    calls_left: u64,
    room_left: u64,
    plan: FaultPlan,
    stop: Option<u64>,
}

impl Model for MemoryDisk {
    ghost use Rattle.disk.specs.Tape.{Tape};

    ghost Value = { Tape };

    ghost use Rattle.disk.specs.MemoryDisk.{tape_of, IsKept};

    ghost view = { tape_of };

    ghost invariant = { IsKept };
}

// How a call goes.
#[derive(Clone, Copy, PartialEq, Eq)]
enum Fate {
    Goes,
    // It fails, and a stop may leave it done in part.
    Fails,
    // Nothing of it is done.
    Refused,
}

// Whether the disk stops in the call of this number, or stopped before it.
fn is_stopped(stop: Option<u64>, number: u64) -> bool
    ensures { result ≡ is_stopped stop number }
{
    match stop {
        Some(last) => last <= number,
        None => false,
    }
}

// Whether the disk stopped in a call before the one of this number.
fn has_stopped(stop: Option<u64>, number: u64) -> bool
    ensures { result ≡ has_stopped stop number }
{
    match stop {
        Some(last) => last < number,
        None => false,
    }
}

// Whether there is room for one call more, and for the bytes that it writes.
fn has_room(calls_left: u64, room_left: u64, bytes: u64) -> bool
    ensures { result ≡ has_room calls_left room_left bytes }
{
    calls_left > 0 && bytes <= room_left
}

// Begins the next call. Where there is a place to record it, it may be done in part, and it goes only where there is room
// for all of it.
fn fate_of(plan: &mut FaultPlan, stop: Option<u64>, has_place: bool, has_room: bool) -> Fate
    ensures due { is_due plan.old stop has_room ≡ true → result ≢ Fate.Goes }
    ensures not_due { is_due plan.old stop has_room ≡ false → result ≡ Fate.Goes }
    ensures room { result ≡ Fate.Goes → has_room ≡ true }
    ensures place { result ≡ Fate.Fails → has_place ≡ true }
    ensures tried { is_tried plan.old stop has_place ≡ true → result ≡ Fate.Fails }
    ensures untried { is_tried plan.old stop has_place ≡ false → result ≢ Fate.Fails }
    ensures same_fails { plan.new.fails ≡ plan.old.fails }
    ensures next_call { plan.new.next_call ≡ raised plan.old.next_call }
    ensures later { plan.old.faults ≤ plan.new.faults }
    ensures goes { result ≡ Fate.Goes → plan.new.faults ≡ plan.old.faults }
    ensures fails { result ≢ Fate.Goes → Rose plan.old.faults plan.new.faults }
{
    let number = plan.next_call();
    let stops = is_stopped(stop, number);
    let is_recorded = has_place && !has_stopped(stop, number);
    if plan.begin_call() {
        return unmade(is_recorded);
    }
    if stops {
        plan.count_fault();
        return unmade(is_recorded);
    }
    if !has_room {
        plan.count_fault();
        return Fate::Refused;
    }
    Fate::Goes
}

// A call that doesn't go.
fn unmade(is_recorded: bool) -> Fate
    ensures not { result ≢ Fate.Goes }
    ensures recorded { is_recorded ≡ true → result ≡ Fate.Fails }
    ensures unrecorded { is_recorded ≡ false → result ≢ Fate.Fails }
{
    if is_recorded {
        Fate::Fails
    } else {
        Fate::Refused
    }
}

// Puts together in `spare` what a write makes of a file. It fails only where `spare` must grow.
#[tactic(auto, using(std::proofs::lemmas::List::drop_all))]
fn overwrite(spare: &mut Vec<u8>, file: &[u8], at: usize, bytes: &[u8]) -> Result<(), AllocError>
    requires { at ≤ length file.now }
    ensures done { OnOk result (spare.new.items ≡ overwritten at bytes.now file.now) }
    ensures len { OnOk result (vec_len spare.new ≤ length file.now + length bytes.now) }
    ensures capacity { vec_capacity spare.old ≤ vec_capacity spare.new }
    ensures full { OnErr result (vec_capacity spare.old < length file.now + length bytes.now) }
{
    spare.clear();
    spare.extend_from_slice(&file[..at])?;
    spare.extend_from_slice(bytes)?;
    let behind = at + bytes.len();
    if behind < file.len() {
        spare.extend_from_slice(&file[behind..])?;
    }
    Ok(())
}

// What a stop may leave, of the file at first and the calls: each byte that was written since the last sync reads as 1, and
// no cut was made. `kept` is what a sync makes last: behind one that failed, what a stop might have left then.
fn image_of(first: &Vec<u8>, calls: &[Call], written: &[u8]) -> Result<Vec<u8>, Memory>
    requires within { AreWithin first.now.items (dones calls.now written.now) }
    requires bytes { total calls.now ≡ length written.now }
    ensures { IfOk result (λ image. left_now first.now.items (dones calls.now written.now) image.items) }
{
    let alloc = *first.allocator();
    let mut kept = Vec::from_slice(alloc, first)?;
    let mut image = Vec::from_slice(alloc, first)?;
    let mut bytes = written;
    for call in calls {
        match *call {
            Call::Wrote { at, len } => {
                let (now, later) = bytes.split_at(len as usize);
                let mut next = Vec::new(alloc);
                overwrite(&mut next, &kept, at as usize, now)?;
                kept = next;
                image = with_ones(alloc, &image, at as usize, len as usize)?;
                bytes = later;
            }
            Call::TriedWrite { at, len } => {
                image = with_ones(alloc, &image, at as usize, len as usize)?;
            }
            Call::Cut(len) => kept.truncate(len as usize),
            Call::TriedCut(_) => {}
            Call::Synced => image = Vec::from_slice(alloc, &kept)?,
            Call::TriedSync => kept = Vec::from_slice(alloc, &image)?,
        }
    }
    Ok(image)
}

// The file with so many bytes of 1 over what is there, and past its end.
fn with_ones(alloc: Global, file: &[u8], at: usize, len: usize) -> Result<Vec<u8>, Memory>
    requires { at ≤ length file.now }
    ensures { IfOk result (λ torn. torn.items ≡ overwritten at (replicate len 1) file.now) }
{
    let ones = vec![in alloc; 1; len]?;
    let mut torn = Vec::new(alloc);
    overwrite(&mut torn, file, at, &ones)?;
    Ok(torn)
}

// Records a write that was made.
fn record_write(calls: &mut Vec<Call>, written: &mut Vec<u8>, at: u64, bytes: &[u8])
    requires fits { total calls.old.items ≡ length written.old.items }
    requires place { vec_len calls.old < vec_capacity calls.old }
    requires room { vec_len written.old + length bytes.now ≤ vec_capacity written.old }
    ensures done { dones calls.new.items written.new.items
        ≡ dones calls.old.items written.old.items ++ Wrote at bytes.now ∷ [] }
    ensures total { total calls.new.items ≡ length written.new.items }
    ensures calls_len { vec_len calls.new ≡ vec_len calls.old + 1 }
    ensures calls_capacity { vec_capacity calls.old ≤ vec_capacity calls.new }
    ensures written_len { vec_len written.new ≡ vec_len written.old + length bytes.now }
    ensures written_capacity { vec_capacity written.old ≤ vec_capacity written.new }
{
    if written.extend_from_slice(bytes).is_err() {
        unreachable!();
    }
    calls.push_reserved(Call::Wrote {
        at,
        len: bytes.len() as u64,
    });
}

// Writes into the content. There is memory for what it may become.
fn write_into(content: &mut Vec<u8>, spare: &mut Vec<u8>, at: u64, bytes: &[u8])
    requires within { at ≤ length content.old.items }
    requires room { vec_len content.old + length bytes.now ≤ vec_capacity spare.old }
    ensures content { content.new.items ≡ overwritten at bytes.now content.old.items }
    ensures len { vec_len content.new ≤ vec_len content.old + length bytes.now }
    ensures content_capacity { vec_capacity spare.old ≤ vec_capacity content.new }
    ensures spare_capacity { vec_capacity content.old ≤ vec_capacity spare.new }
{
    if overwrite(spare, content, at as usize, bytes).is_err() {
        unreachable!();
    }
    mem::swap(content, spare);
}

impl MemoryDisk {
    /// A disk with this file, all of it on the disk. A call of `Disk` fails where its number is among `fails`, and from
    /// the call on in which the disk stops; they are counted from 0, and `faults` is not counted. There is room for
    /// `calls` calls that write, cut or sync, and for `room` bytes over all writes: such a call that needs more fails too.
    pub fn new(
        content: Vec<u8>,
        room: u64,
        calls: u64,
        fails: Vec<u64>,
        stop: Option<u64>,
    ) -> Result<MemoryDisk, Memory>
        ensures first { IfOk result (λ disk. disk.first ≡ content.items) }
        ensures calls { IfOk result (λ disk. disk.calls ≡ []) }
        ensures plan { IfOk result (λ disk. disk.plan
            ≡ record { fails = fails.items; next_call = 0; faults = 0 }) }
        ensures room { IfOk result (λ disk. disk.room_left ≡ room) }
        ensures calls_left { IfOk result (λ disk. disk.calls_left ≡ calls) }
        ensures stop { IfOk result (λ disk. disk.stop ≡ stop) }
    {
        let alloc = *content.allocator();
        let mut now = Vec::from_slice(alloc, &content)?;
        now.reserve(room as usize)?;
        let mut spare = Vec::from_slice(alloc, &content)?;
        spare.reserve(room as usize)?;
        Ok(MemoryDisk {
            first: content,
            content: now,
            spare,
            calls: Vec::with_capacity(alloc, calls as usize)?,
            written: Vec::with_capacity(alloc, room as usize)?,
            calls_left: calls,
            room_left: room,
            plan: FaultPlan::new(fails),
            stop,
        })
    }

    /// The file as it is now.
    pub fn content(&self) -> &[u8]
        ensures { result.now ≡ content_of self.now.first self.now.calls }
    {
        &self.content
    }

    /// An image that a stop now may leave, after a stop one of a moment in the call in which the disk stopped: of what
    /// was written since the last sync each byte is 1, and no cut was made.
    pub fn image(&self) -> Result<Vec<u8>, Memory>
        ensures { IfOk result (λ image. left_now self.now.first self.now.calls image.items) }
    {
        image_of(&self.first, &self.calls, &self.written)
    }

    // A write that is made.
    fn write(&mut self, at: u64, bytes: &[u8])
        requires within { at ≤ length (content_of self.old.first self.old.calls) }
        requires place { 0 < self.old.calls_left }
        requires room { length bytes.now ≤ self.old.room_left }
        ensures plan { self.new.plan ≡ self.old.plan }
        ensures stop { self.new.stop ≡ self.old.stop }
        ensures first { self.new.first ≡ self.old.first }
        ensures calls { self.new.calls ≡ self.old.calls ++ Wrote at bytes.now ∷ [] }
        ensures calls_left { self.new.calls_left + 1 ≡ self.old.calls_left }
        ensures room_left { self.new.room_left + length bytes.now ≡ self.old.room_left }
    {
        record_write(&mut self.calls, &mut self.written, at, bytes);
        write_into(&mut self.content, &mut self.spare, at, bytes);
        self.calls_left -= 1;
        self.room_left -= bytes.len() as u64;
    }

    // A cut that is made.
    fn shorten(&mut self, len: u64)
        requires { 0 < self.old.calls_left }
        ensures plan { self.new.plan ≡ self.old.plan }
        ensures stop { self.new.stop ≡ self.old.stop }
        ensures first { self.new.first ≡ self.old.first }
        ensures calls { self.new.calls ≡ self.old.calls ++ Cut len ∷ [] }
        ensures calls_left { self.new.calls_left + 1 ≡ self.old.calls_left }
        ensures room_left { self.new.room_left ≡ self.old.room_left }
    {
        self.calls.push_reserved(Call::Cut(len));
        self.content.truncate(len as usize);
        self.calls_left -= 1;
    }

    // A call that changes no byte of the file: a sync that is made, or a call of which nothing was done, but which a stop may
    // leave done in part. Behind a sync that failed, what was written before it may be lost.
    fn record(&mut self, call: Call)
        requires quiet { IsQuiet call }
        requires within { BeginsWithin (content_of self.old.first self.old.calls) (quiet call) }
        requires place { 0 < self.old.calls_left }
        ensures plan { self.new.plan ≡ self.old.plan }
        ensures stop { self.new.stop ≡ self.old.stop }
        ensures first { self.new.first ≡ self.old.first }
        ensures calls { self.new.calls ≡ self.old.calls ++ quiet call ∷ [] }
        ensures calls_left { self.new.calls_left + 1 ≡ self.old.calls_left }
        ensures room_left { self.new.room_left ≡ self.old.room_left }
    {
        self.calls.push_reserved(call);
        self.calls_left -= 1;
    }
}

impl Disk for MemoryDisk {
    ghost use Rattle.std.specs.Prelude.{◌≡◌, length, false};
    ghost use Rattle.disk.specs.Tape.{content_told, may_be_left, may_be_synced, has_failed_sync, LeftSince, synced_now, begins_sure, counts_now, only_now};

    ghost content = { content_told };

    ghost may_leave = { may_be_left };

    ghost may_leave_synced = { may_be_synced };

    ghost moment = { λ d. length d.calls };

    ghost left_since = { λ d t image. LeftSince d.first d.calls t image };

    ghost may_begin = { λ d _. has_failed_sync d.calls ≡ false };

    ghost failures = { λ d. d.plan.faults };

    ghost synced_now = { synced_now };

    ghost begins_sure = { begins_sure };

    ghost counts_now = { counts_now };

    ghost only_now = { only_now };

    fn read(&mut self, alloc: Global) -> Result<Vec<u8>, OutError>
        ensures due { (result ≡ Err OutError.Failed) ↔ (is_due self.old.plan self.old.stop true ≡ true) }
        ensures goes_on { GoesOn result 0 0 self.old self.new }
        ensures unrecorded { self.new.calls ≡ self.old.calls }
        ensures bytes { IfOk result (λ bytes. WhereTold (content_told self.old) (λ file. bytes.items ≡ file)) }
        ensures kept { content_told self.new ≡ content_told self.old }
        ensures crash { (image : List ℕ) → may_be_left self.new image → may_be_left self.old image }
        ensures time { TakesTime self.old self.new }
        ensures count { CountsFaults result self.old.plan.faults self.new.plan.faults }
    {
        if fate_of(&mut self.plan, self.stop, true, true) != Fate::Goes {
            return Err(OutError::Failed);
        }
        Ok(Vec::from_slice(alloc, &self.content)?)
    }

    fn write_at(&mut self, at: u64, bytes: &[u8]) -> Result<(), OutError>
        requires { WhereTold (content_told self.old) (λ file. at ≤ length file) }
        ensures due { (result ≡ Err OutError.Failed) ↔ (is_due self.old.plan self.old.stop
            (has_room self.old.calls_left self.old.room_left (length bytes.now)) ≡ true) }
        ensures goes_on { GoesOn result 1 (length bytes.now) self.old self.new }
        ensures recorded { IsRecorded result (Wrote at bytes.now) (TriedWrite at (length bytes.now))
            (is_tried self.old.plan self.old.stop (nat_lt 0 self.old.calls_left))
            self.old.calls self.new.calls }
        ensures written { OnOk result (content_told self.new
            ≡ option_map (overwritten at bytes.now) (content_told self.old)) }
        ensures torn { OnErr result (Becomes (Torn at (length bytes.now))
            (content_told self.old) (content_told self.new)) }
        ensures synced { OnOk result (Follows (Overwrites at bytes.now)
            (may_be_synced self.old) (may_be_synced self.new)) }
        ensures crash { Follows (Torn at (length bytes.now)) (may_be_left self.old) (may_be_left self.new) }
        ensures time { TakesTime self.old self.new }
        ensures no_memory { result ≢ Err OutError.Memory }
        ensures count { CountsFaults result self.old.plan.faults self.new.plan.faults }
    {
        let len = bytes.len() as u64;
        let has_room = has_room(self.calls_left, self.room_left, len);
        match fate_of(&mut self.plan, self.stop, self.calls_left > 0, has_room) {
            Fate::Goes => {
                self.write(at, bytes);
                Ok(())
            }
            Fate::Fails => {
                self.record(Call::TriedWrite { at, len });
                Err(OutError::Failed)
            }
            Fate::Refused => Err(OutError::Failed),
        }
    }

    fn cut(&mut self, len: u64) -> Result<(), OutError>
        ensures due { (result ≡ Err OutError.Failed) ↔ (is_due self.old.plan self.old.stop
            (has_room self.old.calls_left self.old.room_left 0) ≡ true) }
        ensures goes_on { GoesOn result 1 0 self.old self.new }
        ensures recorded { IsRecorded result (Cut len) (TriedCut len)
            (is_tried self.old.plan self.old.stop (nat_lt 0 self.old.calls_left))
            self.old.calls self.new.calls }
        ensures cut { OnOk result (content_told self.new ≡ option_map (take len) (content_told self.old)) }
        ensures torn { OnErr result (Becomes (IsCutOrNot len) (content_told self.old) (content_told self.new)) }
        ensures synced { OnOk result (Follows (IsCut len) (may_be_synced self.old) (may_be_synced self.new)) }
        ensures crash { Follows (IsCutOrNot len) (may_be_left self.old) (may_be_left self.new) }
        ensures time { TakesTime self.old self.new }
        ensures no_memory { result ≢ Err OutError.Memory }
        ensures count { CountsFaults result self.old.plan.faults self.new.plan.faults }
    {
        let has_room = has_room(self.calls_left, self.room_left, 0);
        match fate_of(&mut self.plan, self.stop, self.calls_left > 0, has_room) {
            Fate::Goes => {
                self.shorten(len);
                Ok(())
            }
            Fate::Fails => {
                self.record(Call::TriedCut(len));
                Err(OutError::Failed)
            }
            Fate::Refused => Err(OutError::Failed),
        }
    }

    fn sync(&mut self) -> Result<(), OutError>
        ensures due { (result ≡ Err OutError.Failed) ↔ (is_due self.old.plan self.old.stop
            (has_room self.old.calls_left self.old.room_left 0) ≡ true) }
        ensures goes_on { GoesOn result 1 0 self.old self.new }
        ensures recorded { IsRecorded result Synced TriedSync
            (is_tried self.old.plan self.old.stop (nat_lt 0 self.old.calls_left))
            self.old.calls self.new.calls }
        ensures durable { OnOk result ((image : List ℕ) → may_be_left self.new image
            → may_be_synced self.old image) }
        ensures kept { content_told self.new ≡ content_told self.old }
        ensures crash { (image : List ℕ) → may_be_left self.new image → may_be_left self.old image }
        ensures time { TakesTime self.old self.new }
        ensures no_memory { result ≢ Err OutError.Memory }
        ensures count { CountsFaults result self.old.plan.faults self.new.plan.faults }
    {
        let has_room = has_room(self.calls_left, self.room_left, 0);
        match fate_of(&mut self.plan, self.stop, self.calls_left > 0, has_room) {
            Fate::Goes => {
                self.record(Call::Synced);
                Ok(())
            }
            Fate::Fails => {
                self.record(Call::TriedSync);
                Err(OutError::Failed)
            }
            Fate::Refused => Err(OutError::Failed),
        }
    }

    fn faults(&self) -> u64 {
        self.plan.faults()
    }
}
