//! Tables in memory: rows in the order of their keys.
ghost use Rattle.std.specs.Prelude.{◌≡◌, IfOk, OnOk, OnErr, length};
ghost use Rattle.std.specs.List.Sorted.{IsSearchInRange};
ghost use Rattle.keeper.specs.Put.{put, placed};

use crate::keyed::Keyed;
use pb_base::Memory;
use std::cmp::Ordering;

/// Sets the row of its key, and leaves all others. On want of memory the table is as before.
pub(crate) fn put_row<R: Keyed>(rows: &mut Vec<R>, row: &R) -> Result<(), Memory>
    ensures done { OnOk result (rows.new.items ≡ put R.by_key row.now rows.old.items) }
    ensures unchanged { OnErr result (rows.new.items ≡ rows.old.items) }
{
    let copy = row.copy(*rows.allocator())?;
    match place_of(rows, row) {
        Ok(place) => rows[place] = copy,
        Err(place) => rows.insert(place, copy)?,
    }
    Ok(())
}

// The place of the row with this key, or else the place that it would get.
fn place_of<R: Keyed>(rows: &[R], row: &R) -> Result<usize, usize>
    ensures within { IsSearchInRange result (length rows.now) }
    ensures place { put R.by_key row.now rows.now ≡ placed result row.now rows.now }
{
    for (place, other) in rows.iter().enumerate() {
        match row.cmp_key(other) {
            Ordering::Less => return Err(place),
            Ordering::Equal => return Ok(place),
            Ordering::Greater => {}
        }
    }
    Err(rows.len())
}

/// A further table with rows that are equal to these.
pub(crate) fn copied<R: Keyed>(rows: &Vec<R>) -> Result<Vec<R>, Memory>
    ensures { IfOk result (λ copy. copy.items ≡ rows.now.items) }
{
    let alloc = *rows.allocator();
    let mut copy = Vec::with_capacity(alloc, rows.len())?;
    for row in rows {
        copy.push(row.copy(alloc)?)?;
    }
    Ok(copy)
}
