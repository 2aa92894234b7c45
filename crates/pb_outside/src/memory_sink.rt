//! A sink in memory.
ghost use Rattle.std.specs.Prelude.{◌≡◌, ◌≢◌, ◌↔◌, ◌++◌, [], IsTrue, IfOk, OnOk, OnErr};
ghost use Rattle.pb_outside.specs.MemorySink.{told_by, refuses, after_write, after_refusal};
ghost use Rattle.pb_outside.specs.Sink.{Takes, Refuses};

use crate::{Ends, FaultPlan, OutError, Sink};
use pb_base::Memory;
use std::alloc::Global;
use std::marker::Model;

/// Bytes kept in memory, with room for so many and with chosen calls that fail. It tells all.
#[derive(Drop)]
pub struct MemorySink {
    taken: Vec<u8>,
    room: usize,
    plan: FaultPlan,
}

impl Model for MemorySink {
    ghost use Rattle.std.specs.Prelude.{◌+◌, ◌≤◌, vec_len, vec_capacity};
    ghost use Rattle.pb_outside.specs.MemorySink.{Writes};

    ghost Value = { Writes };

    ghost view = { λ s. record { taken = s.taken.items; room = s.room; plan = s.plan } };

    ghost invariant = { λ s. vec_len s.taken + s.room ≤ vec_capacity s.taken };
}

impl MemorySink {
    ghost use Rattle.pb_outside.specs.FaultPlan.{Plan};

    /// Makes the room for `room` bytes at once, so that no write takes memory. A call fails, and takes nothing, exactly where its number is among `fails` or its piece is longer than the room that is left.
    pub fn new(alloc: Global, room: usize, fails: Vec<u64>) -> Result<MemorySink, Memory>
        ensures taken { IfOk result (λ sink. sink.taken ≡ []) }
        ensures room { IfOk result (λ sink. sink.room ≡ room) }
        ensures plan { let plan : Plan = record { fails = fails.items; next_call = 0; faults = 0 } in
            IfOk result (λ sink. sink.plan ≡ plan) }
    {
        Ok(MemorySink {
            taken: Vec::with_capacity(alloc, room)?,
            room,
            plan: FaultPlan::new(fails),
        })
    }

    /// What was taken so far.
    pub fn taken(&self) -> &[u8]
        ensures { result.now ≡ self.now.taken }
    {
        &self.taken
    }
}

impl Ends for MemorySink {
    ghost use Rattle.pb_outside.specs.Source.{no_input};

    ghost input = { λ _. no_input };

    ghost output = { told_by };

    ghost names = { λ _. [] };
}

impl Sink for MemorySink {
    fn write(&mut self, piece: &[u8]) -> Result<(), OutError>
        ensures whole { OnOk result (Takes piece.now (told_by self.old) (told_by self.new)) }
        ensures cause { OnErr result (Refuses piece.now (told_by self.old) (told_by self.new)) }
        ensures no_memory { result ≢ Err OutError.Memory }

        // Exactly the calls that are to fail, and pieces longer than the room, are refused.
        ensures fails { (result ≡ Err OutError.Failed) ↔ IsTrue (refuses self.old piece.now) }
        ensures written { OnOk result (self.new ≡ after_write self.old piece.now) }
        ensures refused { OnErr result (self.new ≡ after_refusal self.old) }
    {
        if self.plan.begin_call() {
            return Err(OutError::Failed);
        }
        if piece.len() > self.room {
            self.plan.count_fault();
            return Err(OutError::Failed);
        }
        if self.taken.extend_from_slice(piece).is_err() {
            unreachable!();
        }
        self.room -= piece.len();
        Ok(())
    }

    fn write_both(&mut self, first: &[u8], second: &[u8]) -> Result<(), OutError>
        ensures whole { let piece = first.now ++ second.now in
            OnOk result (Takes piece (told_by self.old) (told_by self.new)) }
        ensures cause { let piece = first.now ++ second.now in
            OnErr result (Refuses piece (told_by self.old) (told_by self.new)) }
        ensures no_memory { result ≢ Err OutError.Memory }

        // As one write of both.
        ensures fails { let piece = first.now ++ second.now in
            (result ≡ Err OutError.Failed) ↔ IsTrue (refuses self.old piece) }
        ensures written { OnOk result (self.new ≡ after_write self.old (first.now ++ second.now)) }
        ensures refused { OnErr result (self.new ≡ after_refusal self.old) }
    {
        if self.plan.begin_call() {
            return Err(OutError::Failed);
        }
        let length = first.len() + second.len();
        if length > self.room {
            self.plan.count_fault();
            return Err(OutError::Failed);
        }
        if self.taken.extend_from_slice(first).is_err() {
            unreachable!();
        }
        if self.taken.extend_from_slice(second).is_err() {
            unreachable!();
        }
        self.room -= length;
        Ok(())
    }

    fn write_faults(&self) -> u64 {
        self.plan.faults()
    }
}
