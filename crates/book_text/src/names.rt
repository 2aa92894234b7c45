//! The names that the rows of a text give, each told apart from those before it.
ghost use Rattle.std.specs.Prelude.{◌≡◌, ◌+◌, ◌<◌, ◌^◌, false, Ok, OnErr, is_some, length, if◌then◌else◌};
ghost use Rattle.pb_base.specs.Answers.{Answers, Leaves};
ghost use Rattle.pb_base.specs.Names.{place_in};
ghost use Rattle.pb_base.specs.declared.limits.TheConstants.{MOST_CODES};
ghost use Rattle.book_text.specs.Names.{no_names, added, added_where, beside, entered};

use crate::construct_ids::ConstructIds;
use crate::entry::Entry;
use crate::fault::{BookKind, Which};
use pb_base::limits::{MOST_CODES, MOST_MODULES, MOST_POSITIONS, MOST_SUPPLEMENTS, MOST_VARIANTS};
use pb_base::{CodeName, CodeTable, Fail, Id, Table};
use std::alloc::Global;

/// The names of each kind of record, in record order.
#[derive(Drop)]
pub struct Names {
    pub codes: CodeTable,
    pub supplements: Table<Id>,
    /// Groups are among them.
    pub constructs: ConstructIds,
    pub modules: Table<Id>,
    pub positions: Table<Id>,
    pub variants: Table<Id>,
}

impl Names {
    pub fn new(alloc: Global) -> Names
        ensures { result ≡ no_names }
    {
        Names {
            codes: CodeTable::new(alloc),
            supplements: Table::new(alloc),
            constructs: ConstructIds::new(alloc),
            modules: Table::new(alloc),
            positions: Table::new(alloc),
            variants: Table::new(alloc),
        }
    }

    /// Adds the name of a record. It is refused where its kind has it already, or has as many as it may.
    pub fn enter(&mut self, entry: &Entry) -> Result<(), Fail<BookKind>>
        ensures { Leaves result self.new (entered self.old entry.now) }
    {
        match entry {
            Entry::Code { name } => add_code(&mut self.codes, *name),
            Entry::Supplement { id, .. } => {
                if self.constructs.has(id) {
                    return Err(Fail::Refused(BookKind::Duplicate));
                }
                add_id(
                    &mut self.supplements,
                    *id,
                    MOST_SUPPLEMENTS,
                    Which::Supplements,
                )
            }
            Entry::Construct { id, .. } => {
                new_beside(&self.supplements, id)?;
                self.constructs.add_rule(*id)
            }
            Entry::Group { id, .. } => {
                new_beside(&self.supplements, id)?;
                self.constructs.add_group(*id)
            }
            Entry::Module { id } => add_id(&mut self.modules, *id, MOST_MODULES, Which::Modules),
            Entry::Position { id, .. } => {
                add_id(&mut self.positions, *id, MOST_POSITIONS, Which::Positions)
            }
            Entry::Variant { id, .. } => add_id(
                &mut self.variants,
                *id,
                MOST_VARIANTS,
                Which::Variants,
            ),
        }
    }
}

// A name that is there already is refused as such, even where there is no room for another.
fn add_code(codes: &mut CodeTable, name: CodeName) -> Result<(), Fail<BookKind>>
    ensures { Leaves result codes.new (added MOST_CODES Which.Codes codes.old name) }
{
    if codes.len() as usize >= MOST_CODES {
        return Err(Fail::Refused(full(codes.place_of(&name).is_some(), Which::Codes)));
    }
    match codes.add(name) {
        Ok(_) => Ok(()),
        Err(fault) => Err(fault.map(|_| BookKind::Duplicate)),
    }
}

fn add_id(ids: &mut Table<Id>, id: Id, limit: usize, which: Which) -> Result<(), Fail<BookKind>>
    requires { limit + 1 < 2 ^ 32 }
    ensures { Leaves result ids.new (added limit which ids.old id) }
{
    let is_full = ids.len() as usize >= limit;
    add_where(ids, id, is_full, which)
}

/// Adds an id that is new, unless there is no room for another.
pub fn add_where(
    ids: &mut Table<Id>,
    id: Id,
    is_full: bool,
    which: Which,
) -> Result<(), Fail<BookKind>>
    requires { is_full ≡ false → length ids.old + 1 < 2 ^ 32 }
    ensures value { Leaves result ids.new (added_where is_full which ids.old id) }
    ensures kept { OnErr result (ids.new ≡ ids.old) }
{
    if is_full {
        return Err(Fail::Refused(full(is_taken(ids, &id), which)));
    }
    match ids.add(id) {
        Ok(_) => Ok(()),
        Err(fault) => Err(fault.map(|_| BookKind::Duplicate)),
    }
}

// Refuses an id that others have.
fn new_beside(others: &Table<Id>, id: &Id) -> Result<(), Fail<BookKind>>
    ensures { Answers result (beside others.now id.now (Ok tt)) }
{
    if is_taken(others, id) {
        return Err(Fail::Refused(BookKind::Duplicate));
    }
    Ok(())
}

/// Whether an id is there already.
pub fn is_taken(ids: &Table<Id>, id: &Id) -> bool
    ensures { result ≡ is_some (place_in ids.now id.now) }
{
    ids.place_of(id).is_some()
}

// The fault of a name where there is no room for another, by whether it is there already.
fn full(has: bool, which: Which) -> BookKind
    ensures { result ≡ (if has then BookKind.Duplicate else BookKind.Limit which) }
{
    if has {
        BookKind::Duplicate
    } else {
        BookKind::Limit(which)
    }
}
