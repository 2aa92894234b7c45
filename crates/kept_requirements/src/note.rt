//! What is told of requirements.
ghost use Rattle.std.specs.Prelude.{◌≡◌, ◌≤◌};
ghost use Rattle.std.specs.List.{list_any};
ghost use Rattle.kept_requirements.specs.Notes.{failing, further, is_failing, is_same, is_undecided, last_failing};

use pb_base::{CodeSet, Day, Id};

/// What is told of a requirement. Nothing is told of one that every car keeps on each of its days.
#[derive(Drop)]
pub enum RequirementNote {
    /// On each of these days some car doesn't keep it. This one is a car of the first of them.
    Fails {
        id: Id,
        first: Day,
        last: Day,
        car: CodeSet,
    },
    /// It asks nothing: none of its days is in the term, or no car meets the rule of one that is about a part.
    Idle {
        id: Id,
    },
    /// On each of these days a search was left when as many clauses had been learnt as the budget allows.
    Undecided {
        id: Id,
        first: Day,
        last: Day,
    },
}

impl RequirementNote {
    /// Whether it tells that a requirement fails.
    pub fn is_failing(&self) -> bool
        ensures { result ≡ is_failing self.now }
    {
        match self {
            RequirementNote::Fails { .. } => true,
            RequirementNote::Idle { .. } | RequirementNote::Undecided { .. } => false,
        }
    }

    /// Whether it tells that a search was left.
    pub fn is_undecided(&self) -> bool
        ensures { result ≡ is_undecided self.now }
    {
        match self {
            RequirementNote::Undecided { .. } => true,
            RequirementNote::Idle { .. } | RequirementNote::Fails { .. } => false,
        }
    }
}

/// Whether a requirement fails.
pub fn any_fails(notes: &[RequirementNote]) -> bool
    ensures { result ≡ list_any is_failing notes.now }
{
    notes.iter().any(|note| note.is_failing())
}

/// Whether a search was left.
pub fn any_undecided(notes: &[RequirementNote]) -> bool
    ensures { result ≡ list_any is_undecided notes.now }
{
    notes.iter().any(|note| note.is_undecided())
}

/// How many requirements fail. The notes on one stand together.
pub fn failing(notes: &[RequirementNote]) -> u64
    ensures { result ≡ failing notes.now }
{
    let mut before = None;
    let mut count = 0;
    for note in notes {
        count += further(&before, note);
        before = last_failing(&before, note);
    }
    count
}

// One where a note tells that another requirement fails than the one before.
fn further(before: &Option<Id>, note: &RequirementNote) -> u64
    ensures counted { result ≡ further before.now note.now }
    ensures few { result ≤ 1 }
{
    match note {
        RequirementNote::Fails { id, .. } => { if is_same(before, *id) { 0 } else { 1 } }
        RequirementNote::Idle { .. } | RequirementNote::Undecided { .. } => 0,
    }
}

fn is_same(before: &Option<Id>, id: Id) -> bool
    ensures { result ≡ is_same before.now id }
{
    match before {
        Some(other) => *other == id,
        None => false,
    }
}

// The last requirement that fails.
fn last_failing(before: &Option<Id>, note: &RequirementNote) -> Option<Id>
    ensures { result ≡ last_failing before.now note.now }
{
    match note {
        RequirementNote::Fails { id, .. } => Some(*id),
        RequirementNote::Idle { .. } | RequirementNote::Undecided { .. } => *before,
    }
}
