//! What the kernel of a slice derived, handed on to the next one. No answer hangs on it.
ghost use Rattle.chains.specs.Growth.{Grows};

use crate::moves::{Days, Moves};
use book_model::{Book, Slice};
use chains::{Trace, derive_again};
use clause_pool::Kernel;
use clausify::{Gates, Layout, Start};
use pb_base::{Day, Memory};
use std::alloc::Global;
use std::mem::replace;

/// The chains of the latest slice, its first day and its layout.
#[derive(Drop)]
pub struct EarlierChains {
    day: Day,
    before: Layout,
    // That of the slice that is asked now.
    now: Layout,
    trace: Trace,
}

impl EarlierChains {
    /// Nothing. It takes no memory.
    pub fn none(alloc: Global) -> EarlierChains {
        EarlierChains {
            day: 0,
            before: no_layout(alloc),
            now: no_layout(alloc),
            trace: Trace::none(alloc),
        }
    }

    /// Goes on to a slice of this layout.
    pub fn go_on(&mut self, layout: Layout) {
        self.before = replace(&mut self.now, layout);
    }

    /// The layout of the slice that is asked now.
    pub fn layout(&self) -> &Layout {
        &self.now
    }

    /// Hands on what the kernel of a slice derived, unless it is the last one of the book.
    pub fn follow(&mut self, book: &Book, slice: &Slice, kernel: &Kernel) -> Result<(), Memory> {
        if slice.last >= book.term().last {
            return Ok(());
        }
        self.day = slice.first;
        self.trace.follow(kernel)
    }

    /// Derives again what the slice before derived, as far as what it rests on is there. Nothing is kept of it then.
    #[tactic(auto, using(chains::proofs::GrowthLaws::grows_same))]
    pub fn derive_in(
        &mut self,
        alloc: Global,
        book: &Book,
        slice: &Slice,
        kernel: &mut Kernel,
    ) -> Result<(), Memory>
        ensures { Grows kernel.old kernel.new }
    {
        let trace = replace(&mut self.trace, Trace::none(alloc));
        let before = replace(&mut self.before, no_layout(alloc));
        if trace.len() == 0 {
            return Ok(());
        }
        let days = Days {
            before: self.day,
            now: slice.first,
        };
        let mut moves = Moves::of(alloc, book, days, &before, &self.now)?;
        derive_again(alloc, kernel, &trace, &mut moves)
    }
}

// The layout of no clauses. It takes no memory.
fn no_layout(alloc: Global) -> Layout {
    let gates = Gates {
        first: 0,
        list: Vec::new(alloc),
    };
    let goals = Start { var: 0, clause: 0 };
    Layout {
        gates,
        starts: Vec::new(alloc),
        goals,
    }
}
