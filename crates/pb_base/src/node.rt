//! The nodes of the list that a formula is kept as.
ghost use Rattle.std.specs.Prelude.{◌≡◌, ◌<◌, length, IsTrue};
ghost use Rattle.pb_base.specs.Node.{is_below, value_after, skip_after};

use crate::code_set::CodeSet;

/// A node of a formula. The left side of a connective comes first, then a jump, the right side, and the connective.
#[derive(Clone, Copy, Debug, PartialEq, Eq)]
pub enum Node {
    /// The code at this place is in the set.
    Code(u32),
    /// Turns the truth of what stands before it.
    Not,
    /// Where the left side is false, this many nodes, the right side of an And, needn't be looked at.
    WhenTrue(u32),
    /// Where the left side is true, this many nodes, the right side of an Or, needn't be looked at.
    WhenFalse(u32),
    /// Joins the two sides before it, of which the right has this many nodes.
    And(u32),
    /// Joins the two sides before it, of which the right has this many nodes.
    Or(u32),
    /// Always true.
    Yes,
    /// Never true.
    No,
}

impl Node {
    // The truth after this node, where `seen` is that before it.
    #[inline(always)]
    pub(crate) fn value_after(self, seen: bool, set: &CodeSet) -> bool
        requires { IsTrue (is_below (length set.now) self) }
        ensures { result ≡ value_after set.now seen self }
    {
        match self {
            Node::Code(place) => set.has(place),
            Node::Not => !seen,
            Node::Yes => true,
            Node::No => false,
            _ => seen,
        }
    }

    // How many nodes behind this one are passed over, where `seen` is the truth before it.
    #[inline(always)]
    pub(crate) fn skip_after(self, seen: bool) -> u32
        ensures { result ≡ skip_after seen self }
    {
        match self {
            Node::WhenTrue(size) => if seen { 0 } else { size },
            Node::WhenFalse(size) => if seen { size } else { 0 },
            _ => 0,
        }
    }
}

/// A formula of one word: a code or a constant.
#[derive(Clone, Copy, Debug, PartialEq, Eq)]
pub enum Leaf {
    /// The code at this place, counted from 0.
    Code(u32),
    /// Always true.
    Yes,
    /// Never true.
    No,
}

impl Leaf {
    ghost use Rattle.pb_base.specs.Node.{leaf_node};

    /// The node of the word.
    #[inline(always)]
    pub fn node(self) -> Node
        ensures { result ≡ leaf_node self }
    {
        match self {
            Leaf::Code(place) => Node::Code(place),
            Leaf::Yes => Node::Yes,
            Leaf::No => Node::No,
        }
    }
}
