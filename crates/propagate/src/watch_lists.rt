//! Which clauses are looked at when a literal becomes false: the lists of all literals lie in one block.
ghost use Rattle.std.specs.Prelude.{◌≡◌, ◌+◌, ◌<◌, ◌^◌, [], ℕ, length, slice_get, slice_index_or, slice_set, IfOk, OnOk, OnErr, Some};
ghost use Rattle.std.specs.List.{swap_remove};
ghost use Rattle.propagate.specs.Attaching.{pushed_at, popped_at};
ghost use Rattle.propagate.specs.Block.{Fits, IsLonger, HasRoom};
ghost use Rattle.propagate.specs.Watching.{list_in};

use crate::watch::{ShortWatch, Watch};
use clause_pool::{Lit, Pool, make_room};
use pb_base::Memory;
use std::alloc::Global;
use std::marker::Model;

/// A part of the block: a list, and behind its entries room for more.
#[derive(Clone, Copy)]
pub(crate) struct Span {
    start: u32,
    len: u32,
    room: u32,
}

/// For each literal, by its code, the clauses that watch it. Contracts see a list of lists.
#[derive(Drop)]
pub(crate) struct WatchLists {
    block: Vec<ShortWatch>,
    spans: Vec<Span>,
}

impl Model for WatchLists {
    ghost use Rattle.std.specs.Prelude.{List, length};
    ghost use Rattle.propagate.specs.declared.watch.Watch.{Watch};
    ghost use Rattle.propagate.specs.Block.{lists_in, IsBlock};

    ghost Value = { List (List Watch) };

    ghost view = { λ w. lists_in w.block.items w.spans.items };

    ghost invariant = { λ w. IsBlock w.spans.items (length w.block.items) };
}

impl WatchLists {
    /// So many empty lists.
    pub(crate) fn new(alloc: Global, literals: usize) -> Result<WatchLists, Memory>
        ensures count { IfOk result (λ w. length w ≡ literals) }
        ensures empty { IfOk result (λ w. (code : ℕ) → list_in w code ≡ []) }
    {
        let empty = Span {
            start: 0,
            len: 0,
            room: 0,
        };
        Ok(WatchLists {
            block: Vec::new(alloc),
            spans: vec![in alloc; empty; literals]?,
        })
    }

    /// An empty list for each of these numbers, with room for so many entries.
    pub(crate) fn with_rooms(alloc: Global, rooms: &[u32]) -> Result<WatchLists, Memory>
        ensures count { IfOk result (λ w. length w ≡ length rooms.now) }
        ensures empty { IfOk result (λ w. (code : ℕ) → list_in w code ≡ []) }
    {
        let mut spans = Vec::with_capacity(alloc, rooms.len())?;
        let mut end = 0;
        for room in rooms {
            spans.push(Span {
                start: end,
                len: 0,
                room: *room,
            })?;
            let Some(next) = end.checked_add(*room) else {
                return Err(Memory);
            };
            end = next;
        }
        Ok(WatchLists {
            block: vec![in alloc; ShortWatch::blank(); end as usize]?,
            spans,
        })
    }

    /// The number of lists.
    pub(crate) fn len(&self) -> usize
        ensures { result ≡ length self.now }
    {
        self.spans.len()
    }

    /// The entries of a literal.
    #[inline(always)]
    pub(crate) fn entries(&self, code: u32) -> &[ShortWatch]
        requires { code < length self.now }
        ensures { result.now ≡ list_in self.now code }
    {
        let span = &self.spans[code as usize];
        let start = span.start as usize;
        &self.block[start..start + span.len as usize]
    }

    /// An entry of a literal.
    #[inline(always)]
    pub(crate) fn entry(&self, code: u32, at: usize) -> Watch
        requires list { code < length self.now }
        requires there { at < length (list_in self.now code) }
        ensures { slice_get (list_in self.now code) at ≡ Some result }
    {
        self.entries(code)[at].watch()
    }

    /// A further entry of a literal. On want of memory the lists are as before.
    #[inline(always)]
    pub(crate) fn push(&mut self, code: u32, watch: ShortWatch) -> Result<(), Memory>
        requires { code < length self.old }
        ensures ok { OnOk result (self.new ≡ pushed_at self.old code watch) }
        ensures err { OnErr result (self.new ≡ self.old) }
    {
        let span = self.spans[code as usize];
        if span.len == span.room {
            return self.push_moved(code, watch);
        }
        self.block[span.start as usize + span.len as usize] = watch;
        self.spans[code as usize].len = span.len + 1;
        Ok(())
    }

    // The same where the list has no room.
    #[inline(never)]
    fn push_moved(&mut self, code: u32, watch: ShortWatch) -> Result<(), Memory>
        requires { code < length self.old }
        ensures ok { OnOk result (self.new ≡ pushed_at self.old code watch) }
        ensures err { OnErr result (self.new ≡ self.old) }
    {
        let mut span = with_room(&mut self.block, self.spans[code as usize])?;
        self.block[span.start as usize + span.len as usize] = watch;
        span.len += 1;
        self.spans[code as usize] = span;
        Ok(())
    }

    // Takes the last entry of a literal back.
    fn pop(&mut self, code: u32)
        requires { code < length self.old }
        ensures { self.new ≡ popped_at self.old code }
    {
        let mut span = self.spans[code as usize];
        span.len = span.len.saturating_sub(1);
        self.spans[code as usize] = span;
    }

    /// A further entry of each of two literals. On want of memory the lists are as before.
    pub(crate) fn push_two(
        &mut self,
        first: u32,
        first_watch: ShortWatch,
        second: u32,
        second_watch: ShortWatch,
    ) -> Result<(), Memory>
        requires first { first < length self.old }
        requires second { second < length self.old }
        ensures ok { OnOk result
            (self.new ≡ pushed_at (pushed_at self.old first first_watch) second second_watch) }
        ensures err { OnErr result (self.new ≡ self.old) }
    {
        self.push(first, first_watch)?;
        let Ok(()) = self.push(second, second_watch) else {
            self.pop(first);
            return Err(Memory);
        };
        Ok(())
    }

    /// Removes an entry and gives it; the last one of the list takes its place.
    #[inline(always)]
    pub(crate) fn remove(&mut self, code: u32, at: usize) -> Watch
        requires list { code < length self.old }
        requires there { at < length (list_in self.old code) }
        ensures entry { slice_index_or (list_in self.old code) at result ≡ result }
        ensures lists { self.new ≡ slice_set self.old code (swap_remove (list_in self.old code) at result) }
    {
        let gone = self.entry(code, at);
        let span = self.spans[code as usize];
        let start = span.start as usize;
        let len = span.len - 1;
        let last = self.block[start + len as usize];
        self.block[start + at] = last;
        self.spans[code as usize].len = len;
        gone
    }
}

// A list with room for one more entry: where it is, or else at the end of the block.
#[inline(always)]
fn with_room(block: &mut Vec<ShortWatch>, span: Span) -> Result<Span, Memory>
    requires { Fits span (length block.old.items) }
    ensures kept { IsLonger block.old.items block.new.items }
    ensures room { IfOk result (HasRoom block.old.items block.new.items span) }
{
    if span.len < span.room {
        return Ok(span);
    }
    moved(block, span)
}

// The list copied to the end of the block, where it has twice the room.
#[inline(never)]
fn moved(block: &mut Vec<ShortWatch>, span: Span) -> Result<Span, Memory>
    requires { Fits span (length block.old.items) }
    ensures kept { IsLonger block.old.items block.new.items }
    ensures room { IfOk result (HasRoom block.old.items block.new.items span) }
{
    let len = span.len as usize;
    let from = span.start as usize;
    let to = block.len();
    let more = len.max(2);
    let Ok(start) = u32::try_from(to) else {
        return Err(Memory);
    };
    let Ok(room) = u32::try_from(len + more) else {
        return Err(Memory);
    };
    make_room(block, len + more)?;
    block.extend_from_within(from..from + len)?;
    block.resize(to + len + more, ShortWatch::blank())?;
    Ok(Span {
        start,
        len: span.len,
        room,
    })
}

/// For each of so many literals, the count of the clauses of a pool of which it is one of the first two literals, and two more.
pub(crate) fn rooms_for(alloc: Global, pool: &Pool, literals: usize) -> Result<Vec<u32>, Memory>
    ensures { IfOk result (λ rooms. length rooms.items ≡ literals) }
{
    let mut rooms = vec![in alloc; 2; literals]?;
    for at in 0..pool.len() {
        let lits = pool.lits(at);
        if lits.len() > 1 {
            count(&mut rooms, lits[0]);
            count(&mut rooms, lits[1]);
        }
    }
    Ok(rooms)
}

// One more of a literal.
#[inline(always)]
fn count(rooms: &mut Vec<u32>, lit: Lit)
    ensures { length rooms.new.items ≡ length rooms.old.items }
{
    if let Some(room) = rooms.get_mut(lit.code() as usize) {
        *room = room.saturating_add(1);
    }
}
