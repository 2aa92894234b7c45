//! Which constructibility rules codes touch.
ghost use Rattle.std.specs.Prelude.{◌≡◌, ◌==◌, ◌<◌, ◌^◌, [], All, IfOk, OnOk, IsTrue, Some, length, replicate, true};
ghost use Rattle.std.specs.List.{list_any};
ghost use Rattle.pb_base.specs.Node.{are_below, is_below};
ghost use Rattle.pb_base.specs.Rule.{codes_below};
ghost use Rattle.book_model.specs.Book.{DemandFits};
ghost use Rattle.book_model.specs.declared.demand.Demand.TheVariants as demand;
ghost use Rattle.supplement.specs.Occurrences.{is_code, occurs};
ghost use Rattle.supplement_findings.specs.Answering.{AreTouched};
ghost use Rattle.supplement_findings.specs.Touching.{IsNoted, ends_in, touched_from, touches, with_end};

use book_model::{Book, Demand};
use pb_base::{Formula, Memory, Node, Sequence};
use std::alloc::Global;

/// Of each code the places of the constructibility rules in whose demand it stands, whatever their days.
#[tactic(auto, using(crate::proofs::NotedLaws::touched_none, crate::proofs::NotedLaws::touched_next))]
pub(crate) fn all_touched(alloc: Global, book: &Book) -> Result<Vec<Sequence<u32>>, Memory>
    ensures { IfOk result (λ table. AreTouched (length book.now.codes) book.now.constructs table.items) }
{
    let mut table = empty_rows(alloc, book.codes().len())?;
    for (place, construct) in book.constructs().iter().enumerate() {
        note_demand(&mut table, place as u32, &construct.demand)?;
    }
    Ok(table)
}

// So many lists without a place.
fn empty_rows(alloc: Global, codes: u32) -> Result<Vec<Sequence<u32>>, Memory>
    ensures { IfOk result (λ table. table.items ≡ replicate codes []) }
{
    let mut table = Vec::new(alloc);
    for _ in 0..codes {
        table.push(Sequence::new(alloc))?;
    }
    Ok(table)
}

// Notes a rule in the lists of the codes of its demand.
fn note_demand(table: &mut [Sequence<u32>], place: u32, demand: &Demand) -> Result<(), Memory>
    requires { DemandFits (length table.old) demand.now }
    ensures { OnOk result (IsNoted place (λ c. touches c demand.now) table.old table.new) }
{
    match demand {
        Demand::Rule { on: None, rule } => note_formula(table, place, rule),
        Demand::Rule { on: Some(on), rule } => note_rule_on(table, place, *on, rule),
        Demand::One(group) => note_group(table, place, group.codes()),
        Demand::Most(group) => note_group(table, place, group.codes()),
    }
}

// The same of a rule of a code.
#[tactic(auto, using(crate::proofs::NotedLaws::noted_on))]
fn note_rule_on(
    table: &mut [Sequence<u32>],
    place: u32,
    on: u32,
    rule: &Formula,
) -> Result<(), Memory>
    requires on { on < length table.old }
    requires rule { IsTrue (codes_below (length table.old) rule.now) }
    ensures { OnOk result (IsNoted place (λ c. touches c (demand.Rule (Some on) rule.now)) table.old table.new) }
{
    note(table, place, on)?;
    note_formula(table, place, rule)?;
    Ok(())
}

// The same of the codes of a formula.
#[tactic(auto, using(crate::proofs::OccursLaws::occurs_nodes, crate::proofs::OccursLaws::formula_below, crate::proofs::NotedLaws::noted_same))]
fn note_formula(table: &mut [Sequence<u32>], place: u32, rule: &Formula) -> Result<(), Memory>
    requires { IsTrue (codes_below (length table.old) rule.now) }
    ensures { OnOk result (IsNoted place (λ c. occurs c rule.now) table.old table.new) }
{
    note_nodes(table, place, rule.nodes())
}

fn note_nodes(table: &mut [Sequence<u32>], place: u32, nodes: &[Node]) -> Result<(), Memory>
    requires { are_below (length table.old) nodes.now ≡ true }
    ensures { OnOk result (IsNoted place (λ c. list_any (is_code c) nodes.now) table.old table.new) }
{
    for node in nodes {
        note_node(table, place, *node)?;
    }
    Ok(())
}

#[tactic(auto, using(crate::proofs::NotedLaws::noted_none))]
fn note_node(table: &mut [Sequence<u32>], place: u32, node: Node) -> Result<(), Memory>
    requires { is_below (length table.old) node ≡ true }
    ensures { OnOk result (IsNoted place (λ c. is_code c node) table.old table.new) }
{
    match node {
        Node::Code(code) => note(table, place, code),
        Node::Not | Node::WhenTrue(_) | Node::WhenFalse(_) => Ok(()),
        Node::And(_) | Node::Or(_) | Node::Yes | Node::No => Ok(()),
    }
}

// The same of some codes.
fn note_group(table: &mut [Sequence<u32>], place: u32, group: &[u32]) -> Result<(), Memory>
    requires { All (λ k. k < length table.old) group.now }
    ensures { OnOk result (IsNoted place (λ c. list_any (λ k. k == c) group.now) table.old table.new) }
{
    for code in group {
        note(table, place, *code)?;
    }
    Ok(())
}

// Notes a rule in the list of a code, unless it stands there.
#[tactic(auto, using(crate::proofs::NotedLaws::noted_one))]
fn note(table: &mut [Sequence<u32>], place: u32, code: u32) -> Result<(), Memory>
    requires { code < length table.old }
    ensures { OnOk result (IsNoted place (λ c. code == c) table.old table.new) }
{
    note_in(&mut table[code as usize], place)
}

// Puts a place at the end of a list, unless the list ends in it.
fn note_in(row: &mut Sequence<u32>, place: u32) -> Result<(), Memory>
    ensures { OnOk result (row.new ≡ with_end place row.old) }
{
    if !ends_in(row.as_slice(), place) {
        row.push(place)?;
    }
    Ok(())
}

fn ends_in(row: &[u32], place: u32) -> bool
    ensures { result ≡ ends_in place row.now }
{
    !row.is_empty() && row[row.len() - 1] == place
}

/// Those of a code.
pub(crate) fn touched_at<'a>(book: &Book, table: &'a [Sequence<u32>], code: u32) -> &'a [u32]
    requires table { AreTouched (length book.now.codes) book.now.constructs table.now }
    requires within { code < length book.now.codes }
    ensures { result.now ≡ touched_from 0 code book.now.constructs }
{
    table[code as usize].as_slice()
}
