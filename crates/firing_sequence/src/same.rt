//! Rules of two books that are the same by the names of their codes.
ghost use Rattle.std.specs.Prelude.{◌≡◌, IfOk, false, slice_get};
ghost use Rattle.std.specs.Option.{option_map_or};
ghost use Rattle.firing_sequence.specs.Sequence.{same_at, same_code, same_formula, same_node, same_sequences, same_supplement, zip_all};

use crate::order::firing_order;
use book_model::{Book, Supplement};
use pb_base::{CodeTable, Day, Formula, Memory, Node};
use std::alloc::Global;

/// Whether the active supplementing rules of two books, in the sequence in which they would fire, add codes of the same names where
/// the same formulas are true. Neither ids nor ranks are compared.
pub fn same_sequences(alloc: Global, first: &Book, second: &Book, day: Day) -> Result<bool, Memory>
    ensures { IfOk result (λ same. same ≡ same_sequences first.now second.now day) }
{
    let own = firing_order(alloc, first, day)?;
    let other = firing_order(alloc, second, day)?;
    Ok(same_orders(first, second, &own, &other))
}

// Whether these rules are the same, one by one.
#[tactic(auto, using(crate::proofs::SequenceLaws::zip_failed, crate::proofs::SequenceLaws::zip_lengths))]
fn same_orders(first: &Book, second: &Book, own: &[u32], other: &[u32]) -> bool
    ensures { result ≡ zip_all (same_at first.now second.now) own.now other.now }
{
    if own.len() != other.len() {
        return false;
    }
    for at in 0..own.len() {
        if !same_at(first, second, own[at], other[at]) {
            return false;
        }
    }
    true
}

fn same_at(first: &Book, second: &Book, own: u32, other: u32) -> bool
    ensures { result ≡ same_at first.now second.now own other }
{
    match first.supplements().get(own as usize) {
        Some(rule) => same_as_at(first, second, rule, other),
        None => false,
    }
}

fn same_as_at(first: &Book, second: &Book, own: &Supplement, other: u32) -> bool
    ensures { let same = same_supplement first.now.codes second.now.codes own.now in
        result ≡ option_map_or same (slice_get second.now.supplements other) false }
{
    match second.supplements().get(other as usize) {
        Some(rule) => same_supplement(first.codes(), second.codes(), own, rule),
        None => false,
    }
}

fn same_supplement(
    codes: &CodeTable,
    others: &CodeTable,
    own: &Supplement,
    other: &Supplement,
) -> bool
    ensures { result ≡ same_supplement codes.now others.now own.now other.now }
{
    same_code(codes, others, own.code, other.code)
        && same_formula(codes, others, &own.rule, &other.rule)
}

// Whether the codes at two places have one name.
fn same_code(codes: &CodeTable, others: &CodeTable, own: u32, other: u32) -> bool
    ensures { result ≡ same_code codes.now others.now own other }
{
    if own >= codes.len() || other >= others.len() {
        return false;
    }
    codes.name_of(own) == others.name_of(other)
}

fn same_formula(codes: &CodeTable, others: &CodeTable, own: &Formula, other: &Formula) -> bool
    ensures { result ≡ same_formula codes.now others.now own.now other.now }
{
    same_nodes(codes, others, own.nodes(), other.nodes())
}

#[tactic(auto, using(crate::proofs::SequenceLaws::zip_failed, crate::proofs::SequenceLaws::zip_lengths))]
fn same_nodes(codes: &CodeTable, others: &CodeTable, own: &[Node], other: &[Node]) -> bool
    ensures { result ≡ zip_all (same_node codes.now others.now) own.now other.now }
{
    if own.len() != other.len() {
        return false;
    }
    for at in 0..own.len() {
        if !same_node(codes, others, own[at], other[at]) {
            return false;
        }
    }
    true
}

fn same_node(codes: &CodeTable, others: &CodeTable, own: Node, other: Node) -> bool
    ensures { result ≡ same_node codes.now others.now own other }
{
    match (own, other) {
        (Node::Code(place), Node::Code(read)) => same_code(codes, others, place, read),
        (Node::WhenTrue(size), Node::WhenTrue(read)) => size == read,
        (Node::WhenFalse(size), Node::WhenFalse(read)) => size == read,
        (Node::And(size), Node::And(read)) => size == read,
        (Node::Or(size), Node::Or(read)) => size == read,
        (Node::Not, Node::Not) => true,
        (Node::Yes, Node::Yes) => true,
        (Node::No, Node::No) => true,
        _ => false,
    }
}
