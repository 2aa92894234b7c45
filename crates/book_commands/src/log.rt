//! What a run's status rests on.
ghost use Rattle.std.specs.Prelude.{◌≡◌, ◌++◌, [], ◌∷◌, OnOk, OnErr};

use crate::object::Object;
use book_changes::RunNotes;
use book_compare::CompareNote;
use book_model::LimitFault;
use book_text::BookFault;
use clause_pool::Pool;
use clausify::Question;
use derivation::CertFault;
use kept_requirements::RequirementNote;
use parts_usage::OrderFault;
use pb_base::{CodeSet, Memory};
use requirements::RequirementFault;
use rule_text::RuleFault;
use std::alloc::Global;
use std::marker::Model;
use supplement_findings::SupplementNote;

/// One thing that a status rests on. Places in a book count from 0.
#[derive(Drop)]
pub enum Note {
    /// The text of the book has this fault.
    Text(BookFault),
    /// The order has this fault.
    Order(OrderFault),
    /// The text of the rule that was asked has this fault.
    Rule(RuleFault),
    /// The book exceeds this limit of checking.
    Limit(LimitFault),
    /// The constructibility rule at this place refuses the order.
    Refused(u32),
    /// The order selects so many variants of the position at this place, which may not be.
    Unfit {
        position: u32,
        count: u32,
    },
    /// Something is wrong with the slice at this place: a question has no set that should have one, or this set meets a
    /// question that should have none.
    Finding {
        slice: u32,
        question: Question,
        set: Option<CodeSet>,
    },
    /// A question of the slice at this place was left when these clauses had been learnt for it.
    Spent {
        slice: u32,
        question: Question,
        learnt: Pool,
    },
    /// The certificate has this fault.
    Cert(CertFault),
    /// A note of a report on supplementing rules.
    Supplement(SupplementNote),
    /// A note of a comparison of two books.
    Compare(CompareNote),
    /// What changes from a book to another on a run of days.
    Change(RunNotes),
    /// A note on a requirement.
    Requirement(RequirementNote),
    /// The text of requirements has this fault.
    Stated(RequirementFault),
    /// A search for a car was left when these clauses had been learnt for it.
    Left(Pool),
    /// A row that is kept is not right: its table, 0 form, 1 drafts, 2 books, 3 orders, 4 withdrawn, and its place in it, from
    /// 1, or 0 for the form.
    BadRow {
        table: u32,
        place: u32,
    },
    /// The count of faults of an object that was handed in rose.
    Count {
        which: Object,
        before: u64,
        after: u64,
    },
}

/// The notes of one run, in the order in which they were made.
#[derive(Drop)]
pub struct RunLog {
    notes: Vec<Note>,
}

impl Model for RunLog {
    ghost use Rattle.std.specs.Prelude.{List};
    ghost use Rattle.book_commands.specs.declared.log.Note.{Note};

    ghost Value = { List Note };

    ghost view = { λ l. l.notes.items };
}

impl RunLog {
    /// The log without notes.
    pub fn new(alloc: Global) -> RunLog
        ensures { result ≡ [] }
    {
        RunLog {
            notes: Vec::new(alloc),
        }
    }

    /// Puts a note behind the others. On want of memory the log is as before.
    pub fn push(&mut self, note: Note) -> Result<(), Memory>
        ensures ok { OnOk result (self.new ≡ self.old ++ note ∷ []) }
        ensures err { OnErr result (self.new ≡ self.old) }
    {
        self.notes.push(note)?;
        Ok(())
    }

    /// Moves notes behind the others. On want of memory the log is as before.
    pub fn append(&mut self, mut notes: Vec<Note>) -> Result<(), Memory>
        ensures ok { OnOk result (self.new ≡ self.old ++ notes.items) }
        ensures err { OnErr result (self.new ≡ self.old) }
    {
        self.notes.append(&mut notes)?;
        Ok(())
    }

    /// The notes so far.
    pub fn notes(&self) -> &[Note]
        ensures { result.now ≡ self.now }
    {
        &self.notes
    }
}
