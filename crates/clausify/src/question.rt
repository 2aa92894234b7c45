//! What is asked of a slice, and what its clauses are made into.
ghost use Rattle.std.specs.Prelude.{◌≡◌};
ghost use Rattle.clausify.specs.Questions.{is_to_close};

use clause_pool::{Lit, Pool};

/// A question about the good sets of a slice. Codes, variants and positions are named by their places in the book,
/// counted from 0. It has a set where some good set meets its goal.
#[derive(Clone, Copy, Debug, PartialEq, Eq)]
pub enum Question {
    /// The goal is met by every set, so the slice is void where the question has none.
    Void,
    /// The goal is that the code is absent: it is necessary where the question has no set.
    Necessary(u32),
    /// The goal is that the code is present: it is inadmissible where the question has no set.
    Inadmissible(u32),
    /// The goal is that the variant's formula is true: it is superfluous where the question has no set.
    Superfluous(u32),
    /// The goal is that the formulas of two variants of a position are true together.
    Ambiguous {
        position: u32,
        first: u32,
        second: u32,
    },
    /// The goal is that the formula of no active variant of the position is true.
    Uncovered(u32),
}

impl Question {
    /// Whether a release asks that the question has no set. So it is where two variants of a position would be chosen
    /// together, and where none of a mandatory one would be.
    pub fn is_to_close(self) -> bool
        ensures { result ≡ is_to_close self }
    {
        matches!(self, Question::Ambiguous { .. } | Question::Uncovered(_))
    }
}

/// A question with the literal that is true just where its goal is met.
#[derive(Clone, Copy, Debug, PartialEq, Eq)]
pub struct Asked {
    pub question: Question,
    pub goal: Lit,
}

/// The clauses of a slice, the number of their variables, and its questions in order.
#[derive(Drop)]
pub struct Coded {
    pub pool: Pool,
    pub vars: u32,
    pub questions: Vec<Asked>,
}
