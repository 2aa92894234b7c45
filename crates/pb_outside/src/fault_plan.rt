//! Which calls of an object in memory are to fail.
ghost use Rattle.std.specs.Prelude.{◌≡◌, ◌==◌, true, false};
ghost use Rattle.std.specs.List.{list_any};
ghost use Rattle.pb_outside.specs.Faults.{IsLater};
ghost use Rattle.pb_outside.specs.FaultPlan.{is_to_fail, is_over, faults_of, after_call, with_fault};

use crate::FaultCount;
use std::marker::Model;

/// The numbers, from 0, of the calls that are to fail, with a count of the calls made and of the faults.
#[derive(Drop)]
pub struct FaultPlan {
    fails: Vec<u64>,
    next_call: u64,
    faults: FaultCount,
}

impl Model for FaultPlan {
    ghost use Rattle.pb_outside.specs.FaultPlan.{Plan};

    ghost Value = { Plan };

    ghost view = { λ p. record { fails = p.fails.items; next_call = p.next_call; faults = p.faults } };
}

fn is_among(numbers: &[u64], number: u64) -> bool
    ensures { result ≡ list_any (λ failing. failing == number) numbers.now }
{
    numbers.iter().any(|failing| *failing == number)
}

impl FaultPlan {
    ghost use Rattle.pb_outside.specs.FaultPlan.{Plan};

    /// No call was made yet, and there was no fault.
    pub fn new(fails: Vec<u64>) -> FaultPlan
        ensures { result ≡ record { fails = fails.items; next_call = 0; faults = 0 } }
    {
        FaultPlan {
            fails,
            next_call: 0,
            faults: FaultCount::new(),
        }
    }

    /// The number of the next call.
    pub fn next_call(&self) -> u64
        ensures { result ≡ self.now.next_call }
    {
        self.next_call
    }

    pub fn faults(&self) -> u64
        ensures { result ≡ self.now.faults }
    {
        self.faults.faults()
    }

    /// Begins the next call, and answers whether it is to fail. Where it is, that is counted as a fault.
    pub fn begin_call(&mut self) -> bool
        ensures fails { result ≡ is_to_fail self.old }
        ensures after { self.new ≡ after_call self.old }
        ensures possible { result ≡ true → is_over self.old ≡ false }
        ensures later { IsLater (faults_of self.old) (faults_of self.new) }
    {
        let fails = is_among(&self.fails, self.next_call);
        self.next_call = self.next_call.saturating_add(1);
        if fails {
            self.faults.raise();
        }
        fails
    }

    /// Counts a fault that was not planned.
    pub fn count_fault(&mut self)
        ensures after { self.new ≡ with_fault self.old }
        ensures later { IsLater (faults_of self.old) (faults_of self.new) }
    {
        self.faults.raise();
    }
}
