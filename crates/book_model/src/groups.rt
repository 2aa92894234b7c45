//! The variants of each position, so that a parts list is made without a search.
ghost use Rattle.std.specs.Prelude.{◌≡◌, ◌<◌, ◌^◌, [], All, IfOk, OnOk, OnErr, length, map, replicate, slice_index_or};
ghost use Rattle.book_model.specs.Groups.{AreGroups, with_place};

use crate::record::Variant;
use pb_base::Memory;
use std::alloc::Global;
use std::marker::Model;

/// For each position the places of its variants, in record order. A contract sees a list of lists of places.
#[derive(Drop)]
pub struct VariantGroups {
    groups: Vec<Vec<u32>>,
}

impl Model for VariantGroups {
    ghost use Rattle.std.specs.Prelude.{List, ℕ, map};

    ghost Value = { List (List ℕ) };

    ghost view = { λ g. map (λ group. group.items) g.groups.items };
}

impl VariantGroups {
    /// The groups of so many positions without variants.
    pub fn empty(alloc: Global, positions: usize) -> Result<VariantGroups, Memory>
        ensures { IfOk result (AreGroups positions []) }
    {
        let groups = empty_groups(alloc, positions)?;
        Ok(VariantGroups { groups })
    }

    /// Puts the place of a variant behind those that its position has. On want of memory the groups are as before.
    pub fn add(&mut self, position: u32, place: u32) -> Result<(), Memory>
        requires { position < length self.old }
        ensures ok { OnOk result (self.new ≡ with_place self.old position place) }
        ensures err { OnErr result (self.new ≡ self.old) }
    {
        let group = &mut self.groups[position as usize];
        group.push(place)?;
        Ok(())
    }

    /// The groups of these variants, each of which names one of so many positions by its place.
    pub fn of(
        alloc: Global,
        positions: usize,
        variants: &[Variant],
    ) -> Result<VariantGroups, Memory>
        requires in_range { All (λ v. v.position < positions) variants.now }
        requires places { length variants.now < 2 ^ 32 }
        ensures { IfOk result (AreGroups positions variants.now) }
    {
        let mut groups = VariantGroups::empty(alloc, positions)?;
        for (place, variant) in variants.iter().enumerate() {
            groups.add(variant.position, place as u32)?;
        }
        Ok(groups)
    }

    /// The places of the variants of the position at this place, in record order.
    pub fn of_position(&self, place: u32) -> &[u32]
        requires { place < length self.now }
        ensures { result.now ≡ slice_index_or self.now place [] }
    {
        &self.groups[place as usize]
    }
}

fn empty_groups(alloc: Global, positions: usize) -> Result<Vec<Vec<u32>>, Memory>
    ensures { IfOk result (λ groups. map (λ group. group.items) groups.items ≡ replicate positions []) }
{
    let mut groups = Vec::with_capacity(alloc, positions)?;
    for _ in 0..positions {
        groups.push(Vec::new(alloc))?;
    }
    Ok(groups)
}
