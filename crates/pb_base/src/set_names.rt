//! The names of the codes in a set.
ghost use Rattle.std.specs.Prelude.{◌≡◌, ◌<◌, ◌++◌, length, IfSome, OnOk, slice_get};
ghost use Rattle.pb_base.specs.Sets.{has};
ghost use Rattle.pb_base.specs.NamesText.{named, names_from};

use crate::answer::Memory;
use crate::code_set::CodeSet;
use crate::code_table::CodeTable;
use crate::text::Text;

/// Puts the names of the codes in the set behind a text, each behind a space and in the order of the book.
pub fn put_names(text: &mut Text, codes: &CodeTable, set: &CodeSet) -> Result<(), Memory>
    ensures { OnOk result (text.new ≡ text.old ++ names_from 0 set.now codes.now) }
{
    for place in 0..codes.len() {
        put_name(text, codes, set, place)?;
    }
    Ok(())
}

fn put_name(text: &mut Text, codes: &CodeTable, set: &CodeSet, place: u32) -> Result<(), Memory>
    requires { place < length codes.now }
    ensures { let found = slice_get codes.now place in
        OnOk result (IfSome found (λ name. text.new ≡ text.old ++ named set.now place name)) }
{
    if !is_in(set, place) {
        return Ok(());
    }
    text.put(b" ")?;
    text.put(codes.name_of(place).bytes())?;
    Ok(())
}

fn is_in(set: &CodeSet, place: u32) -> bool
    ensures { result ≡ has set.now place }
{
    place < set.len() && set.has(place)
}
