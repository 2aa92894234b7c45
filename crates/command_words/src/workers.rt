//! How many workers share the work.
ghost use Rattle.std.specs.Prelude.{◌≡◌, ◌<◌, ◌≤◌};

use std::marker::Model;

/// So many workers share the work of a command: 1 to 16.
#[derive(Drop)]
pub struct Workers {
    count: u32,
}

impl Model for Workers {
    ghost use Rattle.std.specs.Prelude.{ℕ, ◌<◌, ◌≤◌};

    ghost Value = { ℕ };

    ghost view = { λ w. w.count };

    ghost invariant = { λ w. (0 < w.count) × (w.count ≤ 16) };
}

impl Workers {
    /// So many workers.
    pub fn of(count: u32) -> Workers
        requires some { 0 < count }
        requires most { count ≤ 16 }
        ensures { result ≡ count }
    {
        Workers { count }
    }

    /// The number of workers.
    pub fn count(&self) -> u32
        ensures value { result ≡ self.now }
        ensures some { 0 < result }
        ensures most { result ≤ 16 }
    {
        self.count
    }
}
