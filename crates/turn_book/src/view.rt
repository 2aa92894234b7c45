//! What a seat at the table knows, and the rule that all seats keep.
use crate::entry::Entry;
use crate::machine::Machine;
use atomic_table::TableRule;
use std::collections::LinkedList;
use std::marker::PhantomData;
use std::snapshot::Snapshot;

// The word with the next ticket.
pub(crate) const TICKET: usize = 0;

// The word with the ticket that is served.
pub(crate) const SERVING: usize = 1;

// The word with the length of the history.
pub(crate) const LENGTH: usize = 2;

// The slot with the machine.
pub(crate) const MACHINE: usize = 0;

/// Where a seat is within a call.
pub enum Stage {
    Idle,
    /// It has drawn a ticket.
    Waits,
    /// Its ticket is served, and the machine is with it.
    Turn,
    /// Its call is counted, and the machine still with it.
    Counted,
}

/// What a seat knows. No value of it is made.
pub struct View<M, C, R> {
    /// The history, as far as the seat has seen it.
    pub seen: LinkedList<Entry<M, C, R>>,
    /// The shorter of two lists that were joined.
    pub told: LinkedList<Entry<M, C, R>>,
    /// The places in the history of the calls that were made by this seat, from 0.
    pub own: LinkedList<u64>,
    /// The calls that it may still begin.
    pub left: u64,
    pub stage: Stage,
    pub ticket: u64,
}

/// What the table is told once: the machine that it opens with, and how many calls there may be.
#[derive(Drop)]
pub struct Opening<M> {
    pub start: Snapshot<M>,
    pub limit: u64,
}

pub struct Turns<M> {
    machine: PhantomData<M>,
}

impl<M: Machine> TableRule<Option<M>, View<M, M::Call, M::Reply>, Opening<M>> for Turns<M> {
    ghost use Rattle.turn_book.specs.History.{IsRun};
    ghost use Rattle.turn_book.specs.Turning.{Turning, newcomer};

    ghost holds = { λ k. Turning (IsRun M.fits M.legal M.valid) k.start.value k.limit };

    ghost first = { λ k. newcomer k.limit };
}
