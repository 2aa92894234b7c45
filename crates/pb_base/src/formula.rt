//! Formulas over the codes of a book.
ghost use Rattle.std.specs.Prelude.{◌≡◌, ◌++◌, ◌∷◌, [], IsTrue, IfOk, OnOk, length};
ghost use Rattle.pb_base.specs.Rule.{code, negation, both, either, always, never, holds, codes_below};
ghost use Rattle.pb_base.specs.Node.{nodes_of, rule_of};
ghost use Rattle.pb_base.specs.Shape.{rule_of_shape};

use crate::answer::Memory;
use crate::code_set::CodeSet;
use crate::node::Node;
use crate::part::{FormulaPart, Shape};
use std::alloc::Global;
use std::marker::Model;

/// A propositional formula over codes, each named by its place among the codes of a book, counted from 0. It is one list of nodes: its truth is found in one loop, and no part of it is on the heap for itself.
#[derive(Drop)]
pub struct Formula {
    nodes: Vec<Node>,
}

impl Model for Formula {
    ghost use Rattle.std.specs.Prelude.{◌≡◌};
    ghost use Rattle.pb_base.specs.Rule.{Rule, rule_code};
    ghost use Rattle.pb_base.specs.Node.{rule_of, nodes_of};

    ghost Value = { Rule };

    ghost coded = { rule_code };

    ghost view = { λ f. rule_of f.nodes.items };

    ghost invariant = { λ f. f.nodes.items ≡ nodes_of (rule_of f.nodes.items) };
}

impl Formula {
    /// The formula that is true where this code is in the set. The place is counted from 0.
    pub fn code(alloc: Global, place: u32) -> Result<Formula, Memory>
        ensures { IfOk result (λ f. f ≡ code place) }
    {
        let nodes = vec![in alloc; Node::Code(place)]?;
        Ok(Formula { nodes })
    }

    /// The formula that is always true.
    pub fn yes(alloc: Global) -> Result<Formula, Memory>
        ensures { IfOk result (λ f. f ≡ always) }
    {
        let nodes = vec![in alloc; Node::Yes]?;
        Ok(Formula { nodes })
    }

    /// The formula that is never true.
    pub fn no(alloc: Global) -> Result<Formula, Memory>
        ensures { IfOk result (λ f. f ≡ never) }
    {
        let nodes = vec![in alloc; Node::No]?;
        Ok(Formula { nodes })
    }

    /// The negation of the formula. On want of memory, here and in the joins below, the formula is given up.
    pub fn not(mut self) -> Result<Formula, Memory>
        ensures { IfOk result (λ f. f ≡ negation self) }
    {
        self.nodes.push(Node::Not)?;
        Ok(self)
    }

    /// The formula that is true where both are, written `+` in a rule. A side of 2^32 nodes counts as want of memory.
    pub fn and(mut self, right: Formula) -> Result<Formula, Memory>
        ensures { IfOk result (λ f. f ≡ both self right) }
    {
        let size = size_of(&right.nodes)?;
        push_side(
            &mut self.nodes,
            Node::WhenTrue(size),
            &right.nodes,
            Node::And(size),
        )?;
        Ok(self)
    }

    /// The formula that is true where one of the two is, written `/` in a rule. A side of 2^32 nodes counts as want of memory.
    pub fn or(mut self, right: Formula) -> Result<Formula, Memory>
        ensures { IfOk result (λ f. f ≡ either self right) }
    {
        let size = size_of(&right.nodes)?;
        push_side(
            &mut self.nodes,
            Node::WhenFalse(size),
            &right.nodes,
            Node::Or(size),
        )?;
        Ok(self)
    }

    /// The formula of a list of nodes that is the list of some formula. It is kept as it is.
    pub fn of_nodes(nodes: Vec<Node>) -> Formula
        requires { nodes.items ≡ nodes_of (rule_of nodes.items) }
        ensures { result ≡ rule_of nodes.items }
    {
        Formula { nodes }
    }

    /// The list that the formula is kept as: each connective behind its two sides, with a jump between them.
    pub fn nodes(&self) -> &[Node]
        ensures { result.now ≡ nodes_of self.now }
    {
        &self.nodes
    }

    /// The formula as a part, to match on its shape.
    pub fn part(&self) -> FormulaPart<'_>
        ensures { result ≡ self.now }
    {
        FormulaPart::of(&self.nodes)
    }

    /// The outermost form of the formula, to match on.
    pub fn shape(&self) -> Shape<'_>
        ensures { rule_of_shape result ≡ self.now }
    {
        self.part().shape()
    }

    /// Whether the formula is true over this set.
    pub fn holds(&self, set: &CodeSet) -> bool
        requires { IsTrue (codes_below (length set.now) self.now) }
        ensures { result ≡ holds self.now set.now }
    {
        let nodes = &self.nodes;
        let mut value = false;
        let mut at = 0;
        while at < nodes.len() {
            let node = nodes[at];
            let skip = node.skip_after(value);
            value = node.value_after(value, set);
            at += 1 + skip as usize;
        }
        value
    }
}

// The number of nodes of a side.
fn size_of(nodes: &[Node]) -> Result<u32, Memory>
    ensures { IfOk result (λ size. size ≡ length nodes.now) }
{
    u32::try_from(nodes.len()).map_err(|_| Memory)
}

// Puts the right side of a connective behind the others, between its jump and the connective.
fn push_side(nodes: &mut Vec<Node>, jump: Node, side: &[Node], join: Node) -> Result<(), Memory>
    ensures { OnOk result (nodes.new.items ≡ nodes.old.items ++ jump ∷ (side.now ++ join ∷ [])) }
{
    nodes.reserve(side.len() + 2)?;
    nodes.push(jump)?;
    nodes.extend_from_slice(side)?;
    nodes.push(join)?;
    Ok(())
}
