//! How often an object of the outside has failed.
ghost use Rattle.std.specs.Prelude.{◌≡◌, ◌≤◌};
ghost use Rattle.pb_outside.specs.Faults.{Rose, raised};

use crate::OutError;
use std::marker::Model;

/// A count of faults. It never falls, and stays at the last value of 64 bits once it is there.
#[derive(Drop)]
pub struct FaultCount {
    faults: u64,
}

impl Model for FaultCount {
    ghost use Rattle.std.specs.Prelude.{ℕ};

    ghost Value = { ℕ };

    ghost view = { λ c. c.faults };
}

impl FaultCount {
    /// No fault so far.
    pub fn new() -> FaultCount
        ensures { result ≡ 0 }
    {
        FaultCount { faults: 0 }
    }

    pub fn faults(&self) -> u64
        ensures { result ≡ self.now }
    {
        self.faults
    }

    /// Counts one fault more.
    pub fn raise(&mut self)
        ensures counted { self.new ≡ raised self.old }
        ensures rose { Rose self.old self.new }
        ensures never_falls { self.old ≤ self.new }
    {
        self.faults = self.faults.saturating_add(1);
    }

    /// Counts one fault more, and answers that a call failed.
    pub fn fail<T>(&mut self) -> Result<T, OutError>
        ensures failed { result ≡ Err OutError.Failed }
        ensures rose { Rose self.old self.new }
        ensures never_falls { self.old ≤ self.new }
    {
        self.raise();
        Err(OutError::Failed)
    }
}
