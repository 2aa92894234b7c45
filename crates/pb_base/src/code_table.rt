//! The codes of a book, by name and by place.
ghost use Rattle.std.specs.Prelude.{◌≡◌, ◌+◌, ◌<◌, ◌^◌, ◌==◌, [], length, IfSome, Some, slice_get, true};
ghost use Rattle.std.specs.List.{IsDistinct, list_all};
ghost use Rattle.pb_base.specs.Names.{is_code_name, place_in, same_name};
ghost use Rattle.pb_base.specs.Table.{AddsName};

use crate::answer::Fail;
use crate::hints::{Hints, TRIES};
use crate::names::CodeName;
use crate::table::Table;
use std::alloc::Global;
use std::marker::Model;

/// The codes of a book in record order, each under its place, counted from 0. A contract sees the list of their names.
#[derive(Drop)]
pub struct CodeTable {
    names: Table<CodeName>,
    hints: Hints,
}

impl Model for CodeTable {
    ghost use Rattle.std.specs.Prelude.{◌≡◌, List, ℕ, true};
    ghost use Rattle.std.specs.List.{list_all};
    ghost use Rattle.pb_base.specs.Names.{is_code_name};

    ghost Value = { List (List ℕ) };

    ghost view = { λ t. t.names };

    ghost invariant = { λ t. list_all is_code_name t.names ≡ true };
}

impl CodeTable {
    /// The table without codes.
    pub fn new(alloc: Global) -> CodeTable
        ensures { result ≡ [] }
    {
        CodeTable {
            names: Table::new(alloc),
            hints: Hints::new(alloc),
        }
    }

    /// Adds a name behind the others and gives its place. It is refused with the place that it has where it is there already; the table is then as before.
    pub fn add(&mut self, name: CodeName) -> Result<u32, Fail<u32>>
        requires { length self.old + 1 < 2 ^ 32 }
        ensures { AddsName self.old name self.new result }
    {
        name.form_law();
        let added = self.names.add(name);
        self.hints.note(&self.names, &name, &added);
        added
    }

    /// The place of a name, or None where the table doesn't have it.
    pub fn place_of(&self, name: &CodeName) -> Option<u32>
        ensures { result ≡ place_in self.now name.now }
    {
        match self.hinted(name) {
            Some(place) => Some(place),
            None => self.names.place_of(name),
        }
    }

    // The place of a name, where a hint leads to it.
    #[inline(always)]
    fn hinted(&self, name: &CodeName) -> Option<u32>
        ensures { IfSome result (λ place. place_in self.now name.now ≡ Some place) }
    {
        let number = name.number();
        for step in 0..TRIES {
            let place = self.hints.place(number, step);
            if self.stands_at(name, place) {
                return Some(place);
            }
        }
        None
    }

    // Whether this name stands at a place, which may be none.
    #[inline(always)]
    fn stands_at(&self, name: &CodeName, place: u32) -> bool
        ensures { result ≡ true → place_in self.now name.now ≡ Some place }
    {
        if place >= self.names.len() {
            return false;
        }
        self.names.name_of(place).is(name)
    }

    /// The name at a place.
    pub fn name_of(&self, place: u32) -> &CodeName
        requires { place < length self.now }
        ensures { slice_get self.now place ≡ Some result.now }
    {
        self.names.name_of(place)
    }

    /// The number of codes. No two of them have one name.
    pub fn len(&self) -> u32
        ensures value { result ≡ length self.now }
        ensures distinct { IsDistinct same_name self.now }
        ensures form { list_all is_code_name self.now ≡ true }
    {
        self.names.len()
    }

    /// What is known of every table; the call does nothing. No two codes have one name, and each name is that of a code.
    pub fn names_law(&self)
        ensures distinct { IsDistinct same_name self.now }
        ensures form { list_all is_code_name self.now ≡ true }
    {
        let _names = self.names.len();
    }

    /// Whether there are no codes.
    pub fn is_empty(&self) -> bool
        ensures { result ≡ (length self.now == 0) }
    {
        self.names.is_empty()
    }
}
