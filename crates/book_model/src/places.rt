//! Codes by their places.
ghost use Rattle.std.specs.Prelude.{◌≡◌};

use std::marker::Model;

/// The codes of a group, each by its place among the codes of the book, counted from 0, as the group names them. A contract sees the list of the places.
#[derive(Drop)]
pub struct Places {
    codes: Vec<u32>,
}

impl Model for Places {
    ghost use Rattle.std.specs.Prelude.{ℕ, List};

    ghost Value = { List ℕ };

    ghost view = { λ p. p.codes.items };
}

impl Places {
    /// The codes at these places.
    pub fn of(codes: Vec<u32>) -> Places
        ensures { result ≡ codes.items }
    {
        Places { codes }
    }

    /// The places of the codes.
    pub fn codes(&self) -> &[u32]
        ensures { result.now ≡ self.now }
    {
        &self.codes
    }
}
