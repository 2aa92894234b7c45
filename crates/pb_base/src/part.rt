//! Parts of a formula, to go down it.
ghost use Rattle.std.specs.Prelude.{◌≡◌};
ghost use Rattle.pb_base.specs.Node.{nodes_of, rule_of};
ghost use Rattle.pb_base.specs.Shape.{rule_of_shape};

use crate::node::Node;
use std::marker::Model;

/// A part of a formula, or the whole of it.
#[derive(Drop)]
pub struct FormulaPart<'a> {
    nodes: &'a [Node],
}

impl<'a> Model for FormulaPart<'a> {
    ghost use Rattle.std.specs.Prelude.{◌≡◌};
    ghost use Rattle.pb_base.specs.Rule.{Rule, rule_code};
    ghost use Rattle.pb_base.specs.Node.{rule_of, nodes_of};

    ghost Value = { Rule };

    ghost coded = { rule_code };

    ghost view = { λ p. rule_of p.nodes.now };

    ghost invariant = { λ p. p.nodes.now ≡ nodes_of (rule_of p.nodes.now) };
}

/// The outermost form of a formula.
#[derive(Drop)]
pub enum Shape<'a> {
    /// The code at this place is in the set.
    Code(u32),
    Not(FormulaPart<'a>),
    And(FormulaPart<'a>, FormulaPart<'a>),
    Or(FormulaPart<'a>, FormulaPart<'a>),
    /// Always true.
    Yes,
    /// Never true.
    No,
}

impl<'a> FormulaPart<'a> {
    // The part of these nodes.
    pub(crate) fn of(nodes: &'a [Node]) -> FormulaPart<'a>
        requires { nodes.now ≡ nodes_of (rule_of nodes.now) }
        ensures { result ≡ rule_of nodes.now }
    {
        FormulaPart { nodes }
    }

    /// The nodes of the part.
    pub fn nodes(&self) -> &'a [Node]
        ensures { result.now ≡ nodes_of self.now }
    {
        self.nodes
    }

    /// The outermost form of the part.
    pub fn shape(&self) -> Shape<'a>
        ensures { rule_of_shape result ≡ self.now }
    {
        let nodes = self.nodes;
        let last = nodes.len() - 1;
        match nodes[last] {
            Node::Code(place) => Shape::Code(place),
            Node::Yes => Shape::Yes,
            Node::No => Shape::No,
            Node::Not => Shape::Not(FormulaPart::of(&nodes[..last])),
            Node::And(size) => {
                let middle = last - size as usize;
                let left = FormulaPart::of(&nodes[..middle - 1]);
                let right = FormulaPart::of(&nodes[middle..last]);
                Shape::And(left, right)
            }
            Node::Or(size) => {
                let middle = last - size as usize;
                let left = FormulaPart::of(&nodes[..middle - 1]);
                let right = FormulaPart::of(&nodes[middle..last]);
                Shape::Or(left, right)
            }
            Node::WhenTrue(_) => unreachable!(),
            Node::WhenFalse(_) => unreachable!(),
        }
    }
}
