//! A source in memory.
ghost use Rattle.std.specs.Prelude.{◌≡◌, ◌≤◌, ◌↔◌, [], IsTrue, Some, IfOk, OnOk, OnErr};
ghost use Rattle.std.specs.Io.KnownBytes.{Keeps};
ghost use Rattle.pb_outside.specs.Faults.{Fails, IsLater};
ghost use Rattle.pb_outside.specs.FaultPlan.{is_to_fail, faults_of, after_call};
ghost use Rattle.pb_outside.specs.MemorySource.{told_by, next_count, piece_limit};
ghost use Rattle.pb_outside.specs.Source.{Appends, ReadsPiece};

use crate::{Ends, FaultPlan, OutError, Source};
use std::marker::Model;

/// Bytes in memory, given in pieces of chosen lengths, with chosen calls that fail. It tells all.
#[derive(Drop)]
pub struct MemorySource {
    content: Vec<u8>,
    place: usize,
    pieces: Vec<usize>,
    plan: FaultPlan,
}

impl Model for MemorySource {
    ghost use Rattle.std.specs.Prelude.{◌≤◌, drop, length};
    ghost use Rattle.pb_outside.specs.MemorySource.{Reads};

    ghost Value = { Reads };

    ghost view = { λ s.
        record { left = drop s.place s.content.items; pieces = s.pieces.items; plan = s.plan } };

    ghost invariant = { λ s. s.place ≤ length s.content.items };
}

impl MemorySource {
    /// Call k gives at most `pieces[k]` bytes, or 1 where that is 0, and as many as it may where there is no such piece. A call fails, and gives nothing, exactly where its number is among `fails`.
    pub fn new(content: Vec<u8>, pieces: Vec<usize>, fails: Vec<u64>) -> MemorySource
        ensures left { result.left ≡ content.items }
        ensures pieces { result.pieces ≡ pieces.items }
        ensures plan { result.plan ≡ record { fails = fails.items; next_call = 0; faults = 0 } }
    {
        MemorySource {
            content,
            place: 0,
            pieces,
            plan: FaultPlan::new(fails),
        }
    }
}

// The most bytes that the call of this number gives.
fn limit_of_call(pieces: &[usize], call: u64, most: usize) -> usize
    requires { 1 ≤ most }
    ensures limit { result ≡ piece_limit pieces.now call most }
    ensures at_most { result ≤ most }
    ensures at_least { 1 ≤ result }
{
    match pieces.get(call as usize) {
        Some(piece) => most.min((*piece).max(1)),
        None => most,
    }
}

impl Ends for MemorySource {
    ghost use Rattle.pb_outside.specs.Sink.{no_output};

    ghost input = { told_by };

    ghost output = { λ _. no_output };

    ghost names = { λ _. [] };
}

impl Source for MemorySource {
    fn read(&mut self, into: &mut Vec<u8>, max: usize) -> Result<usize, OutError>
        requires { 1 ≤ max }
        ensures at_most { IfOk result (λ count. count ≤ max) }
        ensures appends { IfOk result (λ count. Appends count into.old.items into.new.items) }
        ensures told { let left = Some self.old.left in
            let left' = Some self.new.left in
            IfOk result (λ count. ReadsPiece count left left' into.old.items into.new.items) }
        ensures stays { OnOk result (self.new.plan.faults ≡ self.old.plan.faults) }
        ensures unchanged { OnErr result (into.new.items ≡ into.old.items) }
        ensures kept { OnErr result (self.new.left ≡ self.old.left) }
        ensures cause { let fails = Fails (faults_of self.old.plan) (faults_of self.new.plan) in
            result ≡ Err OutError.Failed → fails }
        ensures later { IsLater (faults_of self.old.plan) (faults_of self.new.plan) }

        // Exactly the calls whose numbers are among those to fail do so.
        ensures fails { (result ≡ Err OutError.Failed) ↔ IsTrue (is_to_fail self.old.plan) }
        ensures count { IfOk result (λ count. count ≡ next_count self.old max) }
        ensures plan { self.new.plan ≡ after_call self.old.plan }
        ensures pieces { self.new.pieces ≡ self.old.pieces }
    {
        let limit = limit_of_call(&self.pieces, self.plan.next_call(), max);
        if self.plan.begin_call() {
            return Err(OutError::Failed);
        }
        let left = &self.content[self.place..];
        let count = limit.min(left.len());
        into.extend_from_slice(&left[..count])?;
        self.place += count;
        Ok(count)
    }

    fn read_faults(&self) -> u64 {
        self.plan.faults()
    }
}
