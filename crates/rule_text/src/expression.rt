//! What was read of an expression, while the text inside a bracket or outside all brackets is read.
ghost use Rattle.std.specs.Prelude.{◌≡◌, ◌≤◌, ◌++◌, ◌∷◌, ◌+◌, replicate, length, vec_len, vec_capacity, IfOk, OnOk};
ghost use Rattle.pb_base.specs.Rule.{negated};
ghost use Rattle.pb_base.specs.Node.{nodes_of, rule_of_leaf, leaf_node};
ghost use Rattle.pb_base.specs.declared.node.Node.TheVariants.{Not};
ghost use Rattle.rule_text.specs.Reading.{nothing, whole, with_factor, with_slash};
ghost use Rattle.rule_text.specs.Draft.{open_in, with_term, with_nodes, IsDraft};

use pb_base::{Formula, Leaf, Memory, Node};
use std::alloc::Global;
use std::marker::Model;

// An expression, as far as it was read, as one list of nodes. What stands before the last slash is whole, and behind it comes the
// last term. So a word or a bracket is joined in place, and no term has a list of its own.
#[derive(Drop)]
pub(crate) struct Expression {
    nodes: Vec<Node>,
    /// Where the last term begins. Where it is not the first, the jump over it stands before it, and gets its size when it ends.
    start: usize,
}

impl Model for Expression {
    ghost use Rattle.rule_text.specs.Reading.{Open};
    ghost use Rattle.rule_text.specs.Draft.{open_code, open_in, IsDraft};

    ghost Value = { Open };

    ghost coded = { open_code };

    ghost view = { λ e. open_in e.start e.nodes.items };

    ghost invariant = { λ e. IsDraft e.start e.nodes.items };
}

impl Expression {
    // Nothing was read yet.
    pub(crate) fn new(alloc: Global) -> Expression
        ensures { result ≡ nothing }
    {
        Expression {
            nodes: Vec::new(alloc),
            start: 0,
        }
    }

    // Nothing was read yet, and there is room for this many nodes.
    pub(crate) fn with_room(alloc: Global, room: usize) -> Result<Expression, Memory>
        ensures { IfOk result (λ e. e ≡ nothing) }
    {
        let nodes = Vec::with_capacity(alloc, room)?;
        Ok(Expression { nodes, start: 0 })
    }

    // A factor more, of one word under this many minus signs. On want of memory, here and below, nothing is left of the expression.
    #[inline(always)]
    pub(crate) fn add_word(&mut self, leaf: Leaf, signs: u32) -> Result<(), Memory>
        ensures { OnOk result (self.new ≡ with_factor self.old (negated signs (rule_of_leaf leaf))) }
    {
        match join_word(&mut self.nodes, self.start, leaf, signs) {
            Ok(()) => Ok(()),
            Err(memory) => {
                self.nodes.clear();
                self.start = 0;
                Err(memory)
            }
        }
    }

    // A factor more, which stood in brackets, under this many minus signs.
    pub(crate) fn add_bracket(&mut self, inner: Expression, signs: u32) -> Result<(), Memory>
        ensures { OnOk result (self.new ≡ with_factor self.old (negated signs (whole inner))) }
    {
        let mut factor = inner.into_nodes()?;
        factor.reserve(signs as usize)?;
        put_signs(&mut factor, signs);
        match join_nodes(&mut self.nodes, self.start, &factor) {
            Ok(()) => Ok(()),
            Err(memory) => {
                self.nodes.clear();
                self.start = 0;
                Err(memory)
            }
        }
    }

    // A further term begins.
    #[inline(always)]
    pub(crate) fn add_slash(&mut self) -> Result<(), Memory>
        ensures { OnOk result (self.new ≡ with_slash self.old) }
    {
        match begin_term(&mut self.nodes, self.start) {
            Ok(start) => {
                self.start = start;
                Ok(())
            }
            Err(memory) => {
                self.nodes.clear();
                self.start = 0;
                Err(memory)
            }
        }
    }

    // The formula, if it ends here.
    pub(crate) fn into_formula(self) -> Result<Formula, Memory>
        ensures { IfOk result (λ f. f ≡ whole self) }
    {
        Ok(Formula::of_nodes(self.into_nodes()?))
    }

    // Its nodes, if it ends here.
    fn into_nodes(self) -> Result<Vec<Node>, Memory>
        ensures { IfOk result (λ nodes. nodes.items ≡ nodes_of (whole self)) }
    {
        let mut nodes = self.nodes;
        end_term(&mut nodes, self.start)?;
        Ok(nodes)
    }
}

// Puts FALSE for the last term, which begins at this place, where it has no factor. No text of the grammar has such a term.
#[inline(always)]
fn fill_term(nodes: &mut Vec<Node>, start: usize) -> Result<(), Memory>
    ensures { OnOk result (nodes.new.items ≡ with_term start nodes.old.items) }
{
    if nodes.len() <= start {
        nodes.push(Node::No)?;
    }
    Ok(())
}

// Ends the last term, which begins at this place: the jump over it gets its size.
#[inline(always)]
fn end_term(nodes: &mut Vec<Node>, start: usize) -> Result<(), Memory>
    requires { IsDraft start nodes.old.items }
    ensures { OnOk result (nodes.new.items ≡ nodes_of (whole (open_in start nodes.old.items))) }
{
    fill_term(nodes, start)?;
    if start == 0 {
        return Ok(());
    }
    let size = size_of(&nodes[start..])?;
    nodes[start - 1] = Node::WhenFalse(size);
    nodes.push(Node::Or(size))?;
    Ok(())
}

// Ends the last term, which begins at this place, and begins a further one, whose place it answers.
#[inline(always)]
fn begin_term(nodes: &mut Vec<Node>, start: usize) -> Result<usize, Memory>
    requires { IsDraft start nodes.old.items }
    ensures draft { IfOk result (λ next. IsDraft next nodes.new.items) }
    ensures read { let before = open_in start nodes.old.items in
        IfOk result (λ next. open_in next nodes.new.items ≡ with_slash before) }
{
    end_term(nodes, start)?;
    nodes.push(Node::WhenFalse(0))?;
    Ok(nodes.len())
}

// Joins a factor of one word to the last term, which begins at this place.
#[inline(always)]
fn join_word(nodes: &mut Vec<Node>, start: usize, leaf: Leaf, signs: u32) -> Result<(), Memory>
    ensures { let word = leaf_node leaf ∷ replicate signs Not in
        OnOk result (nodes.new.items ≡ with_nodes start nodes.old.items word) }
{
    let word_size = signs.checked_add(1).ok_or(Memory)?;
    // The word and its signs, a jump before them and a connective behind them.
    nodes.reserve(word_size as usize + 2)?;
    if nodes.len() <= start {
        put_word(nodes, leaf, signs);
    } else {
        nodes.push_reserved(Node::WhenTrue(word_size));
        put_word(nodes, leaf, signs);
        nodes.push_reserved(Node::And(word_size));
    }
    Ok(())
}

// Joins a factor of these nodes to the last term, which begins at this place.
fn join_nodes(nodes: &mut Vec<Node>, start: usize, factor: &[Node]) -> Result<(), Memory>
    ensures { OnOk result (nodes.new.items ≡ with_nodes start nodes.old.items factor.now) }
{
    if nodes.len() <= start {
        nodes.extend_from_slice(factor)?;
        return Ok(());
    }
    let size = size_of(factor)?;
    nodes.push(Node::WhenTrue(size))?;
    nodes.extend_from_slice(factor)?;
    nodes.push(Node::And(size))?;
    Ok(())
}

// The number of nodes of a side. One of 2^32, which no text of 512 words and signs makes, counts as want of memory.
#[inline(always)]
fn size_of(nodes: &[Node]) -> Result<u32, Memory>
    ensures { IfOk result (λ size. size ≡ length nodes.now) }
{
    u32::try_from(nodes.len()).map_err(|_| Memory)
}

// Puts a word and its minus signs behind the others. There is room for them.
#[inline(always)]
fn put_word(nodes: &mut Vec<Node>, leaf: Leaf, signs: u32)
    requires { vec_len nodes.old + (signs + 1) ≤ vec_capacity nodes.old }
    ensures items { nodes.new.items ≡ nodes.old.items ++ leaf_node leaf ∷ replicate signs Not }
    ensures len { vec_len nodes.new ≡ vec_len nodes.old + (signs + 1) }
    ensures room { vec_capacity nodes.new ≡ vec_capacity nodes.old }
{
    nodes.push_reserved(leaf.node());
    put_signs(nodes, signs);
}

// Puts this many minus signs behind the others. There is room for them.
#[inline(always)]
fn put_signs(nodes: &mut Vec<Node>, signs: u32)
    requires { vec_len nodes.old + signs ≤ vec_capacity nodes.old }
    ensures items { nodes.new.items ≡ nodes.old.items ++ replicate signs Not }
    ensures len { vec_len nodes.new ≡ vec_len nodes.old + signs }
    ensures room { vec_capacity nodes.new ≡ vec_capacity nodes.old }
{
    for _ in 0..signs {
        nodes.push_reserved(Node::Not);
    }
}
