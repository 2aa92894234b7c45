//! The draws of the generator.
ghost use Rattle.std.specs.Prelude.{◌≡◌, ◌<◌};
ghost use Rattle.book_sample.specs.Draws.{stepped, drawn};

use std::marker::Model;

/// The numbers that are drawn one after the other. A contract sees the state, which is that of a congruential generator of 32 bits.
#[derive(Clone, Copy)]
pub struct Draws {
    state: u32,
}

impl Model for Draws {
    ghost use Rattle.std.specs.Prelude.{ℕ};

    ghost Value = { ℕ };

    ghost view = { λ d. d.state };

    ghost inverse = { λ state. record { state = state } };
}

impl Draws {
    /// The draws behind this state.
    pub fn from(state: u32) -> Draws
        ensures { result ≡ state }
    {
        Draws { state }
    }

    /// A number below `k`, from the upper half of the next state.
    pub fn draw(&mut self, k: u32) -> u32
        requires { 0 < k }
        ensures number { result ≡ drawn (stepped self.old) k }
        ensures state { self.new ≡ stepped self.old }
        ensures below { result < k }
    {
        let next = (u64::from(self.state) * 1_664_525 + 1_013_904_223) % 4_294_967_296;
        self.state = next as u32;
        self.state / 65_536 % k
    }
}
