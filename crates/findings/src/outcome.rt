//! What comes of a question, and of the questions of a slice.
ghost use Rattle.std.specs.Prelude.{◌≡◌, ◌++◌, IfOk, OnOk};
ghost use Rattle.findings.specs.Outcomes.{outcome_of_set, outcome_of_clause, notes_of, closings_of};

use crate::report::Note;
use clause_pool::Ref;
use clausify::Question;
use derivation::Closing;
use pb_base::{CodeSet, Memory};
use std::alloc::Global;

/// What comes of a question.
#[derive(Drop)]
pub(crate) enum Outcome {
    /// It has a set, and may have one.
    Fine,
    /// It has no set, and must not have one. The clause of the kernel at this place closes it.
    Closed(Ref),
    /// There is something to tell.
    Noted(Note),
}

/// What came of some questions of a slice: notes on them, and the clauses that close those that must have no set.
#[derive(Drop)]
pub(crate) struct Told {
    pub(crate) notes: Vec<Note>,
    pub(crate) closed: Vec<Closing>,
}

/// What comes of a question whose goal this set meets.
pub(crate) fn from_set(alloc: Global, question: Question, set: &CodeSet) -> Result<Outcome, Memory>
    ensures { IfOk result (λ outcome. outcome ≡ outcome_of_set question set.now) }
{
    if !question.is_to_close() {
        return Ok(Outcome::Fine);
    }
    let set = set.copy(alloc)?;
    Ok(Outcome::Noted(Note::Finding {
        question,
        set: Some(set),
    }))
}

/// What comes of a question that the clause at this place refutes.
pub(crate) fn from_clause(question: Question, at: Ref) -> Outcome
    ensures { result ≡ outcome_of_clause question at }
{
    if question.is_to_close() {
        return Outcome::Closed(at);
    }
    Outcome::Noted(Note::Finding {
        question,
        set: None,
    })
}

impl Told {
    /// Puts down what comes of the question of this number.
    pub(crate) fn put(&mut self, number: u32, outcome: Outcome) -> Result<(), Memory>
        ensures notes { OnOk result (self.new.notes.items ≡ self.old.notes.items ++ notes_of outcome) }
        ensures closed { OnOk result (self.new.closed.items
            ≡ self.old.closed.items ++ closings_of number outcome) }
    {
        match outcome {
            Outcome::Fine => {}
            Outcome::Closed(at) => self.closed.push(Closing {
                question: number,
                at,
            })?,
            Outcome::Noted(note) => self.notes.push(note)?,
        }
        Ok(())
    }
}
