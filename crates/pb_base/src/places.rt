//! Codes by their places in a table.
ghost use Rattle.std.specs.Prelude.{◌≡◌, ◌<◌, ◌++◌, ◌∷◌, [], All, IfOk, OnOk, length};
ghost use Rattle.std.specs.Option.{option_to_list};
ghost use Rattle.pb_base.specs.Names.{place_in};
ghost use Rattle.pb_base.specs.Places.{name_at, names_at, places_of};

use crate::answer::Memory;
use crate::code_table::CodeTable;
use crate::names::CodeName;
use std::alloc::Global;

impl CodeTable {
    /// The places of the codes that these names name, in their sequence. A name of no code is passed over.
    pub fn places_of(&self, alloc: Global, names: &[CodeName]) -> Result<Vec<u32>, Memory>
        ensures places { IfOk result (λ places. places.items ≡ places_of self.now names.now) }
        ensures within { IfOk result (λ places. All (λ place. place < length self.now) places.items) }
    {
        let places = listed_places(alloc, self, names)?;
        Ok(places)
    }

    /// The names of the codes at these places.
    pub fn names_at(&self, alloc: Global, places: &[u32]) -> Result<Vec<CodeName>, Memory>
        requires { All (λ place. place < length self.now) places.now }
        ensures { IfOk result (λ names. names.items ≡ names_at self.now places.now) }
    {
        let mut names = Vec::new(alloc);
        for place in places {
            put_name(&mut names, self, *place)?;
        }
        Ok(names)
    }
}

fn listed_places(alloc: Global, codes: &CodeTable, names: &[CodeName]) -> Result<Vec<u32>, Memory>
    ensures { IfOk result (λ places. places.items ≡ places_of codes.now names.now) }
{
    let mut places = Vec::new(alloc);
    for name in names {
        put_place(&mut places, codes, name)?;
    }
    Ok(places)
}

// Puts the place of a name behind the others.
fn put_place(places: &mut Vec<u32>, codes: &CodeTable, name: &CodeName) -> Result<(), Memory>
    ensures { let place = place_in codes.now name.now in
        OnOk result (places.new.items ≡ places.old.items ++ option_to_list place) }
{
    match codes.place_of(name) {
        Some(place) => places.push(place)?,
        None => {}
    }
    Ok(())
}

fn put_name(names: &mut Vec<CodeName>, codes: &CodeTable, place: u32) -> Result<(), Memory>
    requires { place < length codes.now }
    ensures { OnOk result (names.new.items ≡ names.old.items ++ name_at codes.now place ∷ []) }
{
    names.push(*codes.name_of(place))?;
    Ok(())
}
