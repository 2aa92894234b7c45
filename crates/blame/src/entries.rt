//! What may be to blame that no car meets a rule.
ghost use Rattle.std.specs.Prelude.{◌≡◌, ◌++◌, ◌<◌, ◌^◌, IfOk, OnOk, length, map};
ghost use Rattle.blame.specs.Entries.{all_entries, supplement_entries, construct_entries, Among};

use book_model::{Book, active};
use pb_base::{Day, Memory};
use std::alloc::Global;

/// What a set of codes may be asked to meet. Records and codes are told by their places in the book, counted from 0.
#[derive(Clone, Copy, Debug, PartialEq, Eq)]
pub enum Entry {
    /// The supplementing rule doesn't fire.
    Supplement(u32),
    /// The constructibility rule, a group or another, isn't broken.
    Construct(u32),
    /// The code is present.
    Chosen(u32),
}

/// All that a car of the day with these codes meets: the rules that are active, and the codes.
pub(crate) fn all_entries(
    alloc: Global,
    book: &Book,
    day: Day,
    chosen: &[u32],
) -> Result<Vec<Entry>, Memory>
    ensures { IfOk result (λ all. all.items ≡ all_entries book.now day chosen.now) }
{
    let mut all = Vec::new(alloc);
    push_supplements(&mut all, book, day)?;
    push_constructs(&mut all, book, day)?;
    push_chosen(&mut all, chosen)?;
    Ok(all)
}

fn push_supplements(all: &mut Vec<Entry>, book: &Book, day: Day) -> Result<(), Memory>
    ensures { OnOk result (all.new.items ≡ all.old.items ++ supplement_entries book.now day) }
{
    for (place, supplement) in book.supplements().iter().enumerate() {
        if active(supplement.from, supplement.until, day) {
            all.push(Entry::Supplement(place as u32))?;
        }
    }
    Ok(())
}

fn push_constructs(all: &mut Vec<Entry>, book: &Book, day: Day) -> Result<(), Memory>
    ensures { OnOk result (all.new.items ≡ all.old.items ++ construct_entries book.now day) }
{
    for (place, construct) in book.constructs().iter().enumerate() {
        if active(construct.from, construct.until, day) {
            all.push(Entry::Construct(place as u32))?;
        }
    }
    Ok(())
}

fn push_chosen(all: &mut Vec<Entry>, chosen: &[u32]) -> Result<(), Memory>
    ensures { OnOk result (all.new.items ≡ all.old.items ++ map (λ c. Entry.Chosen c) chosen.now) }
{
    for code in chosen {
        all.push(Entry::Chosen(*code))?;
    }
    Ok(())
}

/// The entries that are marked.
pub(crate) fn marked(alloc: Global, all: &[Entry], marks: &[bool]) -> Result<Vec<Entry>, Memory>
    ensures { IfOk result (λ m. Among all.now m.items) }
{
    let mut used = Vec::new(alloc);
    for (place, entry) in all.iter().enumerate() {
        if marks.get(place) == Some(&true) {
            used.push(*entry)?;
        }
    }
    Ok(used)
}
