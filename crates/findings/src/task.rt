//! What is asked of a slice, and how far an answer is looked for.
ghost use Rattle.std.specs.Prelude.{◌≡◌, ◌<◌, ◌≤◌};
ghost use Rattle.findings.specs.Notes.{is_asked};

use crate::report::{Ask, is_blocking};
use book_model::Slice;
use clausify::Question;

// Behind so many learnt clauses a pair is left until its turn comes.
const PAIR_BUDGET: u32 = 1_000;

/// Which questions are asked, and how many clauses may be learnt for each of them.
#[derive(Clone, Copy)]
pub(crate) struct Effort {
    pub(crate) ask: Ask,
    pub(crate) budget: u32,
}

/// The slice whose questions are asked, and how.
#[derive(Clone, Copy)]
pub(crate) struct SliceTask {
    pub(crate) slice: Slice,
    pub(crate) effort: Effort,
}

/// Whether a question is asked.
pub(crate) fn is_asked(ask: Ask, question: Question) -> bool
    ensures { result ≡ is_asked ask question }
{
    match ask {
        Ask::All => true,
        Ask::Blocking => is_blocking(question),
    }
}

/// The same with no more clauses than may be learnt for a pair before its turn.
pub(crate) fn with_few(effort: Effort) -> Effort
    ensures some { 0 < effort.budget → 0 < result.budget }
    ensures most { result.budget ≤ effort.budget }
{
    Effort {
        ask: effort.ask,
        budget: effort.budget.min(PAIR_BUDGET),
    }
}
