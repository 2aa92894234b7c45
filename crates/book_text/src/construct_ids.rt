//! The ids of the constructibility rules, groups among them.
ghost use Rattle.std.specs.Prelude.{◌≡◌, is_some, length};
ghost use Rattle.pb_base.specs.Answers.{Leaves};
ghost use Rattle.pb_base.specs.Names.{place_in};
ghost use Rattle.book_text.specs.ConstructIds.{no_constructs};
ghost use Rattle.book_text.specs.Names.{added_rule, added_group};

use crate::fault::{BookKind, Which};
use crate::names::{add_where, is_taken};
use pb_base::limits::{MOST_CONSTRUCTS, MOST_GROUPS};
use pb_base::{Fail, Id, Table};
use std::alloc::Global;
use std::marker::Model;

/// The ids of the constructibility rules in record order, groups among them, whose limits are kept apart. A contract sees the ids, and how many rules and groups have them.
#[derive(Drop)]
pub struct ConstructIds {
    ids: Table<Id>,
    rules: u32,
    groups: u32,
}

impl Model for ConstructIds {
    ghost use Rattle.std.specs.Prelude.{◌≡◌, ◌+◌, ◌≤◌, length};
    ghost use Rattle.pb_base.specs.declared.limits.TheConstants.{MOST_CONSTRUCTS, MOST_GROUPS};
    ghost use Rattle.book_text.specs.ConstructIds.{ConstructNames};

    ghost Value = { ConstructNames };

    ghost view = { λ c. record { ids = c.ids; rules = c.rules; groups = c.groups } };

    ghost invariant = { λ c.
        (length c.ids ≡ c.rules + c.groups) × (c.rules ≤ MOST_CONSTRUCTS) × (c.groups ≤ MOST_GROUPS) };
}

impl ConstructIds {
    pub fn new(alloc: Global) -> ConstructIds
        ensures { result ≡ no_constructs }
    {
        ConstructIds {
            ids: Table::new(alloc),
            rules: 0,
            groups: 0,
        }
    }

    /// Adds the id of a constructibility rule that is no group.
    pub fn add_rule(&mut self, id: Id) -> Result<(), Fail<BookKind>>
        ensures { Leaves result self.new (added_rule self.old id) }
    {
        let is_full = self.rules as usize >= MOST_CONSTRUCTS;
        add_where(&mut self.ids, id, is_full, Which::Constructs)?;
        self.rules += 1;
        Ok(())
    }

    /// Adds the id of a group.
    pub fn add_group(&mut self, id: Id) -> Result<(), Fail<BookKind>>
        ensures { Leaves result self.new (added_group self.old id) }
    {
        let is_full = self.groups as usize >= MOST_GROUPS;
        add_where(&mut self.ids, id, is_full, Which::Groups)?;
        self.groups += 1;
        Ok(())
    }

    /// Whether a constructibility rule or a group has this id.
    pub fn has(&self, id: &Id) -> bool
        ensures { result ≡ is_some (place_in self.now.ids id.now) }
    {
        is_taken(&self.ids, id)
    }

    /// How many there are, groups counted.
    pub fn len(&self) -> u32
        ensures { result ≡ length self.now.ids }
    {
        self.ids.len()
    }
}
