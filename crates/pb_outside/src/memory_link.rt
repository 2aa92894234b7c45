//! A link in memory.
ghost use Rattle.std.specs.Prelude.{◌≡◌, ◌≢◌, ◌≤◌, ◌↔◌, ◌++◌, [], IsTrue, Some, IfOk, OnOk, OnErr};
ghost use Rattle.pb_outside.specs.Faults.{Fails, IsLater};
ghost use Rattle.pb_outside.specs.FaultPlan.{is_to_fail, faults_of, after_call};
ghost use Rattle.pb_outside.specs.MemorySink.{refuses, after_write, after_refusal};
ghost use Rattle.pb_outside.specs.MemorySource.{next_count};
ghost use Rattle.pb_outside.specs.Sink.{Takes, Refuses};
ghost use Rattle.pb_outside.specs.Source.{Appends, ReadsPiece};

use crate::{Ends, Link, MemorySink, MemorySource, OutError, Sink, Source};
use std::marker::Model;

/// A connection in memory: it is read as its source is, and written as its sink is. It tells all.
#[derive(Drop)]
pub struct MemoryLink {
    source: MemorySource,
    sink: MemorySink,
}

impl Model for MemoryLink {
    ghost use Rattle.pb_outside.specs.MemoryLink.{Exchange};

    ghost Value = { Exchange };

    ghost view = { λ l. record { reads = l.source; writes = l.sink } };
}

impl MemoryLink {
    pub fn new(source: MemorySource, sink: MemorySink) -> MemoryLink
        ensures reads { result.reads ≡ source }
        ensures writes { result.writes ≡ sink }
    {
        MemoryLink { source, sink }
    }

    /// What was taken so far.
    pub fn taken(&self) -> &[u8]
        ensures { result.now ≡ self.now.writes.taken }
    {
        self.sink.taken()
    }
}

impl Ends for MemoryLink {
    ghost use Rattle.pb_outside.specs.MemorySource.{told_by as source_told_by};
    ghost use Rattle.pb_outside.specs.MemorySink.{told_by as sink_told_by};

    ghost input = { λ l. source_told_by l.reads };

    ghost output = { λ l. sink_told_by l.writes };

    ghost names = { λ _. [] };
}

impl Source for MemoryLink {
    fn read(&mut self, into: &mut Vec<u8>, max: usize) -> Result<usize, OutError>
        requires { 1 ≤ max }
        ensures at_most { IfOk result (λ count. count ≤ max) }
        ensures appends { IfOk result (λ count. Appends count into.old.items into.new.items) }
        ensures told { let left = Some self.old.reads.left in
            let left' = Some self.new.reads.left in
            IfOk result (λ count. ReadsPiece count left left' into.old.items into.new.items) }
        ensures stays { OnOk result (self.new.reads.plan.faults ≡ self.old.reads.plan.faults) }
        ensures unchanged { OnErr result (into.new.items ≡ into.old.items) }
        ensures kept { OnErr result (self.new.reads.left ≡ self.old.reads.left) }
        ensures cause { let fails = Fails (faults_of self.old.reads.plan) (faults_of self.new.reads.plan) in
            result ≡ Err OutError.Failed → fails }
        ensures later { IsLater (faults_of self.old.reads.plan) (faults_of self.new.reads.plan) }
        ensures other_end { self.new.writes ≡ self.old.writes }

        // As the source alone.
        ensures fails { (result ≡ Err OutError.Failed) ↔ IsTrue (is_to_fail self.old.reads.plan) }
        ensures count { IfOk result (λ count. count ≡ next_count self.old.reads max) }
        ensures plan { self.new.reads.plan ≡ after_call self.old.reads.plan }
        ensures pieces { self.new.reads.pieces ≡ self.old.reads.pieces }
    {
        self.source.read(into, max)
    }

    fn read_faults(&self) -> u64 {
        self.source.read_faults()
    }
}

impl Sink for MemoryLink {
    ghost use Rattle.pb_outside.specs.MemorySink.{told_by as sink_told_by};

    fn write(&mut self, piece: &[u8]) -> Result<(), OutError>
        ensures whole { let before = sink_told_by self.old.writes in
            OnOk result (Takes piece.now before (sink_told_by self.new.writes)) }
        ensures cause { let before = sink_told_by self.old.writes in
            OnErr result (Refuses piece.now before (sink_told_by self.new.writes)) }
        ensures no_memory { result ≢ Err OutError.Memory }
        ensures other_end { self.new.reads ≡ self.old.reads }

        // As the sink alone.
        ensures fails { (result ≡ Err OutError.Failed) ↔ IsTrue (refuses self.old.writes piece.now) }
        ensures written { OnOk result (self.new.writes ≡ after_write self.old.writes piece.now) }
        ensures refused { OnErr result (self.new.writes ≡ after_refusal self.old.writes) }
    {
        self.sink.write(piece)
    }

    fn write_both(&mut self, first: &[u8], second: &[u8]) -> Result<(), OutError>
        ensures whole { let before = sink_told_by self.old.writes in
            OnOk result (Takes (first.now ++ second.now) before (sink_told_by self.new.writes)) }
        ensures cause { let before = sink_told_by self.old.writes in
            OnErr result (Refuses (first.now ++ second.now) before (sink_told_by self.new.writes)) }
        ensures no_memory { result ≢ Err OutError.Memory }
        ensures other_end { self.new.reads ≡ self.old.reads }

        // As the sink alone.
        ensures fails { let piece = first.now ++ second.now in
            (result ≡ Err OutError.Failed) ↔ IsTrue (refuses self.old.writes piece) }
        ensures written { let piece = first.now ++ second.now in
            OnOk result (self.new.writes ≡ after_write self.old.writes piece) }
        ensures refused { OnErr result (self.new.writes ≡ after_refusal self.old.writes) }
    {
        self.sink.write_both(first, second)
    }

    fn write_faults(&self) -> u64 {
        self.sink.write_faults()
    }
}

impl Link for MemoryLink {}
