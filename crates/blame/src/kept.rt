//! The entries that are kept, as they are told.
ghost use Rattle.std.specs.Prelude.{◌≡◌, IfOk, length};
ghost use Rattle.blame.specs.Guarding.{kept_of};

use crate::blamed::Blamed;
use crate::entries::Entry;
use crate::marks::Marks;
use pb_base::Memory;
use std::alloc::Global;

/// The kept entries, with what is known to be needed of them.
pub(crate) fn blamed_by_marks(
    alloc: Global,
    entries: &[Entry],
    marks: &Marks,
) -> Result<Blamed, Memory>
    requires kept { length marks.now.kept.items ≡ length entries.now }
    requires needed { length marks.now.needed.items ≡ length entries.now }
    ensures entries { IfOk result (λ m. m.entries.items ≡ kept_of entries.now marks.now.kept.items) }
    ensures needed { IfOk result
        (λ m. m.needed.items ≡ kept_of marks.now.needed.items marks.now.kept.items) }
{
    let kept = kept_entries(alloc, entries, &marks.kept)?;
    let needed = kept_marks(alloc, &marks.needed, &marks.kept)?;
    Ok(Blamed {
        entries: kept,
        needed,
    })
}

fn kept_entries(alloc: Global, entries: &[Entry], kept: &[bool]) -> Result<Vec<Entry>, Memory>
    requires { length kept.now ≡ length entries.now }
    ensures { IfOk result (λ some. some.items ≡ kept_of entries.now kept.now) }
{
    let mut some = Vec::new(alloc);
    for (place, entry) in entries.iter().enumerate() {
        if kept[place] {
            some.push(*entry)?;
        }
    }
    Ok(some)
}

fn kept_marks(alloc: Global, marks: &[bool], kept: &[bool]) -> Result<Vec<bool>, Memory>
    requires { length kept.now ≡ length marks.now }
    ensures { IfOk result (λ some. some.items ≡ kept_of marks.now kept.now) }
{
    let mut some = Vec::new(alloc);
    for (place, mark) in marks.iter().enumerate() {
        if kept[place] {
            some.push(*mark)?;
        }
    }
    Ok(some)
}
