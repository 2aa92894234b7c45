//! Names in the order in which they came, by name and by place.
ghost use Rattle.std.specs.Prelude.{◌≡◌, ◌+◌, ◌<◌, ◌^◌, ◌==◌, [], length, position, Some, slice_get};
ghost use Rattle.std.specs.List.{IsDistinct};
ghost use Rattle.pb_base.specs.Table.{Adds};

use crate::answer::Fail;
use indexmap::IndexSet;
use std::alloc::{AllocFailed, Global};
use std::hash::Hash;
use std::marker::Model;

/// Names in the order in which they came, each once and under its place, counted from 0. A contract sees the list of them.
#[derive(Drop)]
pub struct Table<N: Eq + Hash> {
    names: IndexSet<N>,
}

impl<N: Eq + Hash> Model for Table<N> {
    ghost use Rattle.std.specs.Prelude.{List, length, ◌<◌, ◌^◌};

    ghost Value = { List N };

    ghost view = { λ t. t.names.keys };

    ghost invariant = { λ t. length t.names.keys < 2 ^ 32 };
}

impl<N: Eq + Hash + Drop> Table<N> {
    /// The table without names.
    pub fn new(alloc: Global) -> Table<N>
        ensures { result ≡ [] }
    {
        Table {
            names: IndexSet::new(alloc),
        }
    }

    /// Adds a name behind the others and gives its place. It is refused with the place that it has where it is there already; the table is then as before.
    pub fn add(&mut self, name: N) -> Result<u32, Fail<u32>>
        requires { length self.old + 1 < 2 ^ 32 }
        ensures { Adds N.eq self.old name self.new result }
    {
        match self.names.insert_full(name) {
            Ok((place, true)) => Ok(place as u32),
            Ok((place, false)) => Err(Fail::Refused(place as u32)),
            Err(AllocFailed { .. }) => Err(Fail::Memory),
        }
    }

    /// The place of a name, or None where the table doesn't have it.
    pub fn place_of(&self, name: &N) -> Option<u32>
        ensures { result ≡ position (N.eq name.now) self.now }
    {
        match self.names.get_index_of(name) {
            Some(place) => Some(place as u32),
            None => None,
        }
    }

    /// The name at a place.
    pub fn name_of(&self, place: u32) -> &N
        requires { place < length self.now }
        ensures { slice_get self.now place ≡ Some result.now }
    {
        &self.names[place as usize]
    }

    /// The number of names. No two of them are the same.
    pub fn len(&self) -> u32
        ensures value { result ≡ length self.now }
        ensures distinct { IsDistinct N.eq self.now }
    {
        self.names.len() as u32
    }

    /// Whether there are no names.
    pub fn is_empty(&self) -> bool
        ensures { result ≡ (length self.now == 0) }
    {
        self.names.is_empty()
    }
}
