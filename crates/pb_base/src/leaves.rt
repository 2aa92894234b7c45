//! Copies of formulas with other words in place of their codes.
ghost use Rattle.std.specs.Prelude.{◌≡◌, ℕ, IfOk};
ghost use Rattle.pb_base.specs.Leaves.{with_leaves, node_with, present, renamed};
ghost use Rattle.pb_base.specs.declared.node.Leaf.{Leaf};

use crate::answer::Memory;
use crate::formula::Formula;
use crate::node::{Leaf, Node};
use std::alloc::Global;

/// What stands in place of each code.
pub trait Leaves {
    ghost leaf: { Self → ℕ → Leaf };

    /// The word in place of the code at this place, counted from 0.
    fn leaf(&self, code: u32) -> Leaf
        ensures { result ≡ leaf self.now code };
}

/// One code is read as present, all others stay.
#[derive(Clone, Copy, Debug)]
pub struct Present(pub u32);

impl Leaves for Present {
    ghost leaf = { λ p code. present p.0 code };

    fn leaf(&self, code: u32) -> Leaf {
        if code == self.0 {
            Leaf::Yes
        } else {
            Leaf::Code(code)
        }
    }
}

/// Each code has another place. A code behind the last that has one is never present, as in a set that ends before it.
#[derive(Clone, Copy, Debug)]
pub struct Renamed<'a>(pub &'a [u32]);

impl<'a> Leaves for Renamed<'a> {
    ghost leaf = { λ r code. renamed r.0.now code };

    fn leaf(&self, code: u32) -> Leaf {
        match self.0.get(code as usize) {
            Some(place) => Leaf::Code(*place),
            None => Leaf::No,
        }
    }
}

impl Formula {
    /// The same formula with a word in place of each code.
    pub fn with_leaves<L: Leaves>(&self, alloc: Global, leaves: &L) -> Result<Formula, Memory>
        ensures { IfOk result (λ f. f ≡ with_leaves (L.leaf leaves.now) self.now) }
    {
        let mut nodes = Vec::new(alloc);
        nodes.reserve(self.nodes().len())?;
        for node in self.nodes() {
            nodes.push(node_with(*node, leaves))?;
        }
        Ok(Formula::of_nodes(nodes))
    }
}

// The node with a word in place of its code.
fn node_with<L: Leaves>(node: Node, leaves: &L) -> Node
    ensures { result ≡ node_with (L.leaf leaves.now) node }
{
    match node {
        Node::Code(place) => leaves.leaf(place).node(),
        _ => node,
    }
}
